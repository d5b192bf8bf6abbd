// What becomes of an envelope after a try or at its end: it waits again, a report goes back, a notice goes out, or it is dropped.

#![tactic(auto)]

pub mod act;
mod double_fault;
mod report;
mod retry;
