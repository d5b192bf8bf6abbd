// The fields of an envelope, apart from any record.
ghost use Rattle.std.specs.Prelude.{◌≡◌};
ghost use Rattle.envelope.specs.Views.{held};
ghost use Rattle.envelope.specs.Views.{kind_number};
ghost use Rattle.envelope_fields.specs.Plain.{plain, plain_by, plain_of, content_kind, content_code};

use envelope::parts::{Envelope, Kind};
use std::convert::AsSlice;

// A status carries its code. An `Option` of the code would be no plainer: `None` would not say that it is a message.
#[derive(Clone, Copy, PartialEq, Eq, Debug)]
pub enum Content {
    Message,
    Status(u16),
}

impl Content {
    pub fn kind(self) -> Kind
        ensures { kind_number result ≡ content_kind self }
    {
        match self {
            Content::Message => Kind::Message,
            Content::Status(_) => Kind::Status,
        }
    }

    // 0 for a message, which has none.
    pub fn code(self) -> u16
        ensures { result ≡ content_code self }
    {
        match self {
            Content::Message => 0,
            Content::Status(code) => code,
        }
    }
}

// What is to be written as a record: its length and the lengths of its parts follow. The texts are lent or owned.
// AR and VB stay numbers: a caller may bring one past its bound, and is told so.
#[derive(Clone, Copy, Drop)]
pub struct FieldsOf<T> {
    pub content: Content,
    pub todt: u32,
    pub to: u16,
    pub ar: u8,
    pub vb: u8,
    pub on: T,
    pub fr: T,
    pub ad: T,
    pub df: T,
    pub ct: T,
    pub rest: T,
}

// With lent texts.
pub type Fields<'a> = FieldsOf<&'a [u8]>;

impl<T: AsSlice<u8>> FieldsOf<T> {
    // The same fields, with their texts lent.
    pub fn lent(&self) -> Fields<'_>
        ensures { plain result ≡ plain_by T.items self.now }
    {
        FieldsOf {
            content: self.content,
            todt: self.todt,
            to: self.to,
            ar: self.ar,
            vb: self.vb,
            on: self.on.as_slice(),
            fr: self.fr.as_slice(),
            ad: self.ad.as_slice(),
            df: self.df.as_slice(),
            ct: self.ct.as_slice(),
            rest: self.rest.as_slice(),
        }
    }
}

// The fields of an envelope that was read, to write it again.
impl<'a> From<Envelope<'a>> for Fields<'a> {
    ghost from_gives = { λ e r. plain r ≡ plain_of (held e) };

    fn from(envelope: Envelope<'a>) -> Fields<'a> {
        let (content, parts) = match envelope {
            Envelope::Message(parts) => (Content::Message, parts),
            Envelope::Status(code, parts) => (Content::Status(code), parts),
        };
        Fields {
            content,
            todt: parts.todt,
            to: parts.to,
            ar: parts.ar,
            vb: parts.vb,
            on: parts.on.bytes,
            fr: parts.fr.bytes,
            ad: parts.ad.bytes,
            df: parts.df.bytes,
            ct: parts.ct.bytes,
            rest: parts.rest.bytes,
        }
    }
}
