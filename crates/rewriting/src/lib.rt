// Writing a record that was read over again.

#![tactic(auto)]

pub mod fault;
pub mod rewriting;
