// The reason of a status: its own text, or a line of a text sheet.

#![tactic(auto)]

pub mod answer;
pub mod sheet;
pub mod status;
