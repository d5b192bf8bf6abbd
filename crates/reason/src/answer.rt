// Where the reason of a status stands.
use envelope::parts::Part;

// A part of the record, or of the text sheet. Both are good answers, so that a `Result` would say the wrong thing of one.
#[derive(Clone, Copy)]
pub enum Reason<'r, 's> {
    Record(Part<'r>),
    Sheet(Part<'s>),
}
