// Taking an envelope in: a row of its ledger, and the lowest free place.

#![tactic(auto)]

pub mod taking;
