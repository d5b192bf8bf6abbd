// Lines read one after another from bytes in memory.

#![tactic(auto)]

#[cfg(test)]
mod lines;
