// What an answer tells.
use arguments::fault::LineFault;
use envelope::parts::Envelope;
use reason::answer::Reason;
use refusals::refusal::Refusal;
use routing::row::Way;

// The verbs whose answers can be refusals.
#[derive(Clone, Copy)]
pub enum Verb {
    Envelope,
    Way,
    Reason,
}

#[derive(Clone, Copy)]
pub enum Answer<'a> {
    // the record that fields were written as
    Record(&'a [u8]),
    Envelope(Envelope<'a>),
    // a way, or that there is none
    Way(Option<Way>),
    Reason(Reason<'a, 'a>),
    Refusal(Verb, Refusal),
    // that the line is no call
    Error(LineFault),
}
