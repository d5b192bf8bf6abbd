// Refusals of the layers below, as an answer tells them.

#![tactic(auto)]

pub mod refusal;
