// Short texts that a row keeps by value.

#![tactic(auto)]

pub mod short_text;
