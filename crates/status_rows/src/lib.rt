// The rows of the ledger of statuses.

#![tactic(auto)]

pub mod status;
