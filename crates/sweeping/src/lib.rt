// The sweep: what is due by the clock alone, done one at a time.

#![tactic(auto)]

pub mod sweep;
