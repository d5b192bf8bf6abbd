// Reading a record.

#![tactic(auto)]

mod fields;
mod integers;
pub mod reading;
