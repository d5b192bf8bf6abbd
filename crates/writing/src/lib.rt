// Writing an envelope's fields as a record.

#![tactic(auto)]

mod draft;
pub mod fault;
pub mod writing;
