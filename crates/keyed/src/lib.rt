// The fields of an envelope by keyed words, as `todt=1000000 fr=AAA:F1`.

#![tactic(auto)]

mod check;
pub mod fields;
mod keys;
mod shape;
