// What the rows for messages and for statuses have in common.

#![tactic(auto)]

pub mod kept;
pub mod row;
