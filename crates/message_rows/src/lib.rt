// The rows of the ledger of messages.

#![tactic(auto)]

pub mod message;
