// What has been counted of a run of the program.
#[derive(Clone, Copy)]
pub struct Counts {
    // input lines
    pub lines: u64,
    // lines that made a call of a relay
    pub calls: u64,
    // answers that are refusals
    pub refused: u64,
    // lines that were no call
    pub errors: u64,
}
