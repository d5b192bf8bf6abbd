// Comparing addresses by their names.

#![tactic(auto)]

pub mod names;
