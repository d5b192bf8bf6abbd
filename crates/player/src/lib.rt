// The player: a relay with its connections, the calls on it, and what each gave back. The law that no request is lost, doubled
// or left pending with nobody holding it stands on the contracts of `step`, for one call, and of `play`, for a list of calls.

#![tactic(auto)]

pub mod call;
pub mod player;
pub mod step;
pub mod told;
