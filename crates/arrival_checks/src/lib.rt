// What an arrival is answered, and the checks on an envelope that need neither the relay nor its ledgers.

#![tactic(auto)]

pub mod answer;
pub mod fault;
pub mod key;
pub mod repeat;
pub mod ways;
