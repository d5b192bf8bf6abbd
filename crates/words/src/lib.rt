// The words of a line of bytes.

#![tactic(auto)]

pub mod cut;
