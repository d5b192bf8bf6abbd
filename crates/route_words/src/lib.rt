// The words that stand for a row of the route table.

#![tactic(auto)]

pub mod row;
