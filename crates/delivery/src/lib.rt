// Delivery to the neighbours: handing an envelope out, reading it, and what the neighbour answered.

#![tactic(auto)]

pub mod answering;
pub mod fault;
pub mod handing_out;
pub mod outcome;
pub mod reading;
