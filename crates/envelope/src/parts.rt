// What reading a record gives: a message or a status, whose fields are parts of the record.
ghost use Rattle.std.specs.Prelude.{◌≡◌};
ghost use Rattle.envelope.specs.Views.{kind_number, seen, view, held};
ghost use Rattle.envelope.specs.Originators.{originator_of};
ghost use Rattle.envelope.specs.Decoding.{NumbersKind};

use crate::fault::RecordFault;

// Some bytes of a record, and the offset of the first.
#[derive(Clone, Copy)]
pub struct Part<'a> {
    pub bytes: &'a [u8],
    pub at: usize,
}

// What an envelope's record says but for its kind and code, which the envelope's case tells. AR and VB are the record's numbers.
#[derive(Clone, Copy)]
pub struct Parts<'a> {
    pub todt: u32,
    pub to: u16,
    pub ar: u8,
    pub vb: u8,
    pub on: Part<'a>,
    pub fr: Part<'a>,
    pub ad: Part<'a>,
    pub df: Part<'a>,
    pub ct: Part<'a>,
    pub rest: Part<'a>,
}

#[derive(Clone, Copy, PartialEq, Eq, Debug)]
pub enum Kind {
    Message,
    Status,
}

impl Kind {
    // The number that stands for the kind in a record.
    pub fn number(self) -> u16
        ensures { result ≡ kind_number self }
    {
        match self {
            Kind::Message => 1,
            Kind::Status => 2,
        }
    }
}

// No other number stands for a kind.
impl TryFrom<u16> for Kind {
    type Error = RecordFault;

    ghost try_from_gives = { NumbersKind };

    fn try_from(number: u16) -> Result<Kind, RecordFault> {
        match number {
            1 => Ok(Kind::Message),
            2 => Ok(Kind::Status),
            _ => Err(RecordFault::Kind),
        }
    }
}

// A status carries its code.
#[derive(Clone, Copy)]
pub enum Envelope<'a> {
    Message(Parts<'a>),
    Status(u16, Parts<'a>),
}

impl<'a> Envelope<'a> {
    pub fn kind(self) -> Kind
        ensures { kind_number result ≡ (held self.entry).kind }
    {
        match self {
            Envelope::Message(_) => Kind::Message,
            Envelope::Status(_, _) => Kind::Status,
        }
    }

    // 0 for a message, which has none.
    pub fn code(self) -> u16
        ensures { result ≡ (held self.entry).code }
    {
        match self {
            Envelope::Message(_) => 0,
            Envelope::Status(code, _) => code,
        }
    }

    pub fn parts(self) -> Parts<'a>
        ensures { view result ≡ (held self.entry).fields }
    {
        match self {
            Envelope::Message(parts) => parts,
            Envelope::Status(_, parts) => parts,
        }
    }

    // The address that the message came from. A status goes back there, and so has it as its recipient.
    pub fn originator(self) -> Part<'a>
        ensures { seen result ≡ originator_of (held self.entry) }
    {
        match self {
            Envelope::Message(parts) => parts.fr,
            Envelope::Status(_, parts) => parts.ad,
        }
    }
}
