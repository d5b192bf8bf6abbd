// The standing of each place: what has become of the envelope in it.

#![tactic(auto)]

pub mod standing;
pub mod table;
