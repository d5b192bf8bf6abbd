// What the record says: its kind, and the envelope that it is.
ghost use Rattle.std.specs.Prelude.{◌≡◌, IfOk, OnOk};
ghost use Rattle.envelope.specs.Integers.{u16_at};
ghost use Rattle.envelope.specs.Limits.{length_ok};
ghost use Rattle.envelope.specs.Views.{held, kind_number};
ghost use Rattle.envelope.specs.Decoding.{decode_kind, decode, told, told_kind};
ghost use Rattle.envelope.specs.Lawful.{Sized, Lawful, Placed};

use crate::fields::{fixed_of, parts_of};
use crate::integers::u16_at;
use envelope::fault::RecordFault;
use envelope::parts::{Envelope, Kind};

// 49 to 2048 bytes, as many as the first field says.
fn is_length(rec: &[u8]) -> bool
    ensures { result ≡ length_ok rec.now }
{
    let n = rec.len();
    49 <= n && n <= 2048 && u16_at(rec, 0) as usize == n
}

// The kind of a record whose length is right; the fields after the kind are not looked at.
pub fn kind_of(rec: &[u8]) -> Result<Kind, RecordFault>
    ensures value { told_kind result ≡ decode_kind rec.now }
    ensures sized { OnOk result (Sized rec.now) }
    ensures kind { IfOk result (λ k. kind_number k ≡ u16_at rec.now 2) }
{
    if !is_length(rec) {
        return Err(RecordFault::Length);
    }
    Kind::try_from(u16_at(rec, 2))
}

fn parse(rec: &[u8]) -> Result<Envelope<'_>, RecordFault>
    ensures { told result ≡ decode rec.now }
{
    let kind = kind_of(rec)?;
    let fixed = fixed_of(rec, kind);
    fixed.check()?;
    let parts = parts_of(rec, fixed)?;
    match kind {
        Kind::Message => Ok(Envelope::Message(parts)),
        Kind::Status => Ok(Envelope::Status(fixed.code, parts)),
    }
}

// The message or status that the record is, or the first fault of its fields in their order.
pub fn read(rec: &[u8]) -> Result<Envelope<'_>, RecordFault>
    ensures value { told result ≡ decode rec.now }
    ensures lawful { IfOk result (λ e. Lawful (held e)) }
    ensures placed { IfOk result (λ e. Placed rec.now (held e)) }
{
    parse(rec)
}
