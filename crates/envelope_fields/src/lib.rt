// The fields of an envelope, apart from any record, and the forms that they must have.

#![tactic(auto)]

pub mod check;
pub mod fields;
