// What comes of a message that is live: its ledger is asked, its ways are chosen, and it is taken in.

#![tactic(auto)]

pub mod message;
