// Lines of bytes from any reader, one at a time and of bounded length.

#![tactic(auto)]

pub mod input;
mod keeping;
mod piece;
