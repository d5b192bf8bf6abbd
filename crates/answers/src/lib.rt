// The line that tells an answer.

#![tactic(auto)]

pub mod answer;
pub mod counts;
pub mod line;
