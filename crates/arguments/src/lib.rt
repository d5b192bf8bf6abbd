// What the words of a call stand for: numbers, hex digits and texts.

#![tactic(auto)]

pub mod fault;
pub mod value;
