// Which way an envelope goes: the rows of a route table, and the choice of the best one that fits.

#![tactic(auto)]

pub mod choice;
mod fit;
mod making;
pub mod row;
