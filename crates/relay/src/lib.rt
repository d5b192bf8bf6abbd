// The relay: a clock, a count of tries, an address of its own, a standing for each place, and a spool.

#![tactic(auto)]

pub mod about;
pub mod relay;
