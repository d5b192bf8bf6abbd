// What came of a try, and what it says of the envelope.
ghost use Rattle.std.specs.Prelude.{◌≡◌};
ghost use Rattle.delivery.specs.Outcomes.{reply_of};

// An acknowledge with its code, an HTTP status in its place, or nothing at all.
#[derive(Clone, Copy)]
pub enum Outcome {
    Acknowledge(u16),
    Http(u16),
    Silence,
}

// The types of acknowledge. A report on a message tells the code that stands here.
#[derive(Clone, Copy)]
pub enum Reply {
    Receipt(u16),
    Accepted,
    Temporary,
    Permanent(u16),
}

// Whatever is no acknowledge of a known type counts as temporary.
pub fn reply_of(outcome: Outcome) -> Reply
    ensures { result ≡ reply_of outcome }
{
    match outcome {
        Outcome::Acknowledge(code) if code >= 100 && code < 200 => Reply::Receipt(code),
        Outcome::Acknowledge(code) if code >= 200 && code < 300 => Reply::Accepted,
        Outcome::Acknowledge(code) if code >= 400 && code < 500 => Reply::Permanent(code),
        _ => Reply::Temporary,
    }
}
