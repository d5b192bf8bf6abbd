// What comes of a status that is live: its ledger is asked, its way is chosen, and it is taken in.

#![tactic(auto)]

pub mod status;
