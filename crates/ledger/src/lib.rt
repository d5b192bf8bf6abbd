// Ledgers: rows in the caller's memory that remember who was answered what, until when.

#![tactic(auto)]

pub mod fault;
mod places;
pub mod row;
mod search;
pub mod table;
pub mod wiping;
