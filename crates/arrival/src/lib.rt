// What is answered to an envelope that arrives, and what the relay and its ledgers hold afterwards.

#![tactic(auto)]

pub mod arriving;
pub mod bringing;
