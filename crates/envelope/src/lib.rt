// Envelopes as they stand in a record: the record's layout, and what an envelope tells.

#![tactic(auto)]

pub mod fault;
pub mod fixed;
pub mod life;
pub mod limits;
pub mod parts;
