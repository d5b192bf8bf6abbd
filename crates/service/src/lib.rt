// The program's work line by line: what it replies, what it keeps and what it counts.

#![tactic(auto)]

mod reply;
pub mod service;
mod tell;
