// The admitted connections of a host, each under a number of the host's own.

#![tactic(auto)]

pub mod connections;
