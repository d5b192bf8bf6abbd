// Playing a whole list of calls on a new relay.

#![tactic(auto)]

pub mod entry;
pub mod play;
