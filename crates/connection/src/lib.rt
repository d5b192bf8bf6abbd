// Connections of neighbours: open until the white list admits them, admitted until they are closed.

#![tactic(auto)]

pub mod admission;
pub mod admitted;
pub mod fault;
mod words;
