// The call that a line makes.

#![tactic(auto)]

pub mod call;
mod envelope_words;
mod question;
pub mod reading;
mod route_table;
