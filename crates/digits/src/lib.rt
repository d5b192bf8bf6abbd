// Numbers in decimal digits and bytes in hex digits, read and written.

#![tactic(auto)]

pub mod hex;
pub mod number;
