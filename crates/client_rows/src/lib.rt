// The white list: which clients may connect, by the fingerprints of their certificates.

#![tactic(auto)]

pub mod client;
pub mod white_list;
