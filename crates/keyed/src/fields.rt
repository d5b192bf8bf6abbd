// The fields of an envelope, read from keyed words.
ghost use Rattle.std.specs.Prelude.{◌≡◌, Ok, vec_items};
ghost use Rattle.words.specs.Cuts.{seen};
ghost use Rattle.arguments.specs.Faults.{Gives};
ghost use Rattle.envelope_fields.specs.Plain.{content_kind, content_code};
ghost use Rattle.keyed.specs.Keys.{find};
ghost use Rattle.keyed.specs.Fields.{number_for, text_for, code_for, kind_for, rest_key, fields_for, fields_of, field_text};

use crate::check::check_words;
use crate::keys::find_value;
use crate::shape::is_shape;
use arguments::fault::{CallFault, LineFault};
use arguments::value::{read_number, read_text};
use envelope::parts::Kind;
use envelope_fields::fields::{Content, FieldsOf};
use std::alloc::Global;

// The fields of a line, which owns their texts.
pub type FieldText = FieldsOf<Vec<u8>>;

// The number under a key, or what stands for one that is left out.
fn number_or(name: &[u8], words: &[&[u8]], most: u64, default: u64) -> u64
    ensures { result ≡ number_for most default (find name.now (seen words.now)) }
{
    find_value(name, words)
        .and_then(|value| read_number(value, most).ok())
        .unwrap_or(default)
}

// The text under a key, empty where it is left out.
fn text_or_none(heap: Global, name: &[u8], words: &[&[u8]]) -> Result<Vec<u8>, CallFault>
    ensures { Gives vec_items result (Ok (text_for (find name.now (seen words.now)))) }
{
    let Some(value) = find_value(name, words) else {
        return Ok(Vec::new(heap));
    };
    match read_text(heap, value) {
        Err(CallFault::Line(_)) => Ok(Vec::new(heap)),
        read => read,
    }
}

fn content_of(kind: Kind, words: &[&[u8]]) -> Content
    ensures kind { content_kind result ≡ kind_for kind }
    ensures code { content_code result ≡ code_for kind (seen words.now) }
{
    match kind {
        Kind::Message => Content::Message,
        Kind::Status => Content::Status(number_or(b"code", words, u16::MAX.into(), 0) as u16),
    }
}

fn rest_key(kind: Kind) -> &'static [u8]
    ensures { result.now ≡ rest_key kind }
{
    match kind {
        Kind::Message => b"body",
        Kind::Status => b"text",
    }
}

// The fields by their keys; what is left out has its default.
fn gather(heap: Global, kind: Kind, words: &[&[u8]]) -> Result<FieldText, CallFault>
    ensures { Gives field_text result (Ok (fields_for kind (seen words.now))) }
{
    Ok(FieldText {
        content: content_of(kind, words),
        todt: number_or(b"todt", words, u32::MAX.into(), 0) as u32,
        to: number_or(b"to", words, u16::MAX.into(), 60) as u16,
        ar: number_or(b"ar", words, u8::MAX.into(), 0) as u8,
        vb: number_or(b"vb", words, u8::MAX.into(), 1) as u8,
        on: text_or_none(heap, b"on", words)?,
        fr: text_or_none(heap, b"fr", words)?,
        ad: text_or_none(heap, b"ad", words)?,
        df: text_or_none(heap, b"df", words)?,
        ct: text_or_none(heap, b"ct", words)?,
        rest: text_or_none(heap, rest_key(kind), words)?,
    })
}

// The fields that the words after `message` or `status` give.
pub fn read_fields(heap: Global, kind: Kind, words: &[&[u8]]) -> Result<FieldText, CallFault>
    ensures { Gives field_text result (fields_of kind (seen words.now)) }
{
    if !is_shape(kind, words) {
        return Err(LineFault::WrongWords.into());
    }
    check_words(heap, words)?;
    gather(heap, kind, words)
}
