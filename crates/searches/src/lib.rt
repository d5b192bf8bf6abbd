// Searches over the standings of all places: what is due next, what is due for a sweep, what is oldest.

#![tactic(auto)]

pub mod search;
pub mod table;
