// What an answer says of an envelope.

#![tactic(auto)]

pub mod line;
