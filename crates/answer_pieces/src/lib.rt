// The pieces from which the line of an answer is put together.

#![tactic(auto)]

pub mod ends;
pub mod pieces;
