// The pieces that tell an envelope.
ghost use Rattle.std.specs.Prelude.{◌≡◌, OnOk};
ghost use Rattle.envelope.specs.Views.{held, view};
ghost use Rattle.answer_pieces.specs.Pieces.{appended, grouped};
ghost use Rattle.answer_pieces.specs.Texts.{keyed_text};
ghost use Rattle.envelope_line.specs.EnvelopeLines.{number_groups, text_groups, message_groups, status_groups, told_groups};

use answer_pieces::pieces::{put, put_keyed_number, put_text};
use envelope::parts::{Envelope, Parts};
use std::alloc::AllocError;

// A key, and a text right after it.
fn put_keyed_text(out: &mut Vec<u8>, key: &[u8], bytes: &[u8]) -> Result<(), AllocError>
    ensures { OnOk result (out.new.items ≡ appended out.old.items (keyed_text key.now bytes.now)) }
{
    put(out, key)?;
    put_text(out, bytes)
}

fn put_numbers(out: &mut Vec<u8>, parts: Parts<'_>) -> Result<(), AllocError>
    ensures { OnOk result (out.new.items ≡ grouped out.old.items (number_groups (view parts.entry))) }
{
    put_keyed_number(out, b" todt=", u64::from(parts.todt))?;
    put_keyed_number(out, b" to=", u64::from(parts.to))?;
    put_keyed_number(out, b" ar=", u64::from(parts.ar))?;
    put_keyed_number(out, b" vb=", u64::from(parts.vb))
}

fn put_texts(out: &mut Vec<u8>, parts: Parts<'_>) -> Result<(), AllocError>
    ensures { OnOk result (out.new.items ≡ grouped out.old.items (text_groups (view parts.entry))) }
{
    put_keyed_text(out, b" on=", parts.on.bytes)?;
    put_keyed_text(out, b" fr=", parts.fr.bytes)?;
    put_keyed_text(out, b" ad=", parts.ad.bytes)?;
    put_keyed_text(out, b" df=", parts.df.bytes)?;
    put_keyed_text(out, b" ct=", parts.ct.bytes)
}

// The two kinds stay apart: a status has its code between its numbers and its texts, and each names its last text otherwise.
fn put_message(out: &mut Vec<u8>, parts: Parts<'_>) -> Result<(), AllocError>
    ensures { OnOk result (out.new.items ≡ grouped out.old.items (message_groups (view parts.entry))) }
{
    put(out, b"message")?;
    put_numbers(out, parts)?;
    put_texts(out, parts)?;
    put_keyed_text(out, b" body=", parts.rest.bytes)
}

fn put_status(out: &mut Vec<u8>, code: u16, parts: Parts<'_>) -> Result<(), AllocError>
    ensures { OnOk result (out.new.items ≡ grouped out.old.items (status_groups code (view parts.entry))) }
{
    put(out, b"status")?;
    put_numbers(out, parts)?;
    put_keyed_number(out, b" code=", u64::from(code))?;
    put_texts(out, parts)?;
    put_keyed_text(out, b" text=", parts.rest.bytes)
}

// An envelope, field by field.
pub fn put_envelope(out: &mut Vec<u8>, envelope: Envelope<'_>) -> Result<(), AllocError>
    ensures { OnOk result (out.new.items ≡ grouped out.old.items (told_groups (held envelope.entry))) }
{
    match envelope {
        Envelope::Message(parts) => put_message(out, parts),
        Envelope::Status(code, parts) => put_status(out, code, parts),
    }
}
