// The texts in an envelope: byte classes, letter case, the forms of addresses, dataflows, operation numbers and contacts,
// and the type `Address`.

#![tactic(auto)]

pub mod address;
pub mod case;
pub mod fault;
pub mod forms;
pub mod padding;
