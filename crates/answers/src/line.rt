// The whole line that tells an answer, and the last line of a run.
ghost use Rattle.std.specs.Prelude.{◌≡◌, OnOk};
ghost use Rattle.reason.specs.Reasons as reasons;
ghost use Rattle.envelope.specs.Views.{seen};
ghost use Rattle.answer_pieces.specs.Pieces.{appended, grouped};
ghost use Rattle.refusals.specs.Refusals.{fault_values, said_refusal};
ghost use Rattle.answers.specs.Answers.{told_answer, answer_groups, verb_text, written_pieces, chosen_pieces, way_pieces, placed_text, field_pieces, reason_pieces, value_pieces, refused_pieces, error_pieces, answer_onto, end_onto, LinesStandBehind};

use crate::answer::{Answer, Verb};
use crate::counts::Counts;
use answer_pieces::ends::{begin_line, end_line};
use answer_pieces::pieces::{put, put_keyed_number, put_text};
use arguments::fault::LineFault;
use digits::hex::write_hex;
use envelope::fault::FieldFault;
use envelope::parts::Part;
use envelope_line::line::put_envelope;
use reason::answer::Reason;
use refusals::refusal::Refusal;
use routing::row::Way;
use std::alloc::AllocError;

// The word that tells it; bytes and no `Display`, as with a `LineFault`.
fn verb_text(verb: Verb) -> &'static [u8]
    ensures { result.now ≡ verb_text verb }
{
    match verb {
        Verb::Envelope => b"envelope",
        Verb::Way => b"way",
        Verb::Reason => b"reason",
    }
}

fn put_written(out: &mut Vec<u8>, bytes: &[u8]) -> Result<(), AllocError>
    ensures { OnOk result (out.new.items ≡ appended out.old.items (written_pieces bytes.now)) }
{
    put_keyed_number(out, b"envelope ", bytes.len() as u64)?;
    put(out, b" ")?;
    write_hex(bytes, out)
}

fn put_chosen(out: &mut Vec<u8>, way: Way) -> Result<(), AllocError>
    ensures { OnOk result (out.new.items ≡ appended out.old.items (chosen_pieces way)) }
{
    match way {
        Way::Local => put(out, b"way local"),
        Way::Neighbour(k) => put_keyed_number(out, b"way neighbour ", k as u64),
    }
}

fn put_way(out: &mut Vec<u8>, way: Option<Way>) -> Result<(), AllocError>
    ensures { OnOk result (out.new.items ≡ appended out.old.items (way_pieces way)) }
{
    match way {
        Some(chosen) => put_chosen(out, chosen),
        None => put(out, b"way none"),
    }
}

// The name of the slice, and then the part of it with its place.
fn put_part(out: &mut Vec<u8>, name: &[u8], part: Part<'_>) -> Result<(), AllocError>
    ensures { OnOk result (out.new.items ≡ appended out.old.items (placed_text name.now (seen part.entry))) }
{
    put_keyed_number(out, name, part.at as u64)?;
    put(out, b" ")?;
    put_text(out, part.bytes)
}

fn put_reason(out: &mut Vec<u8>, reason: Reason<'_, '_>) -> Result<(), AllocError>
    ensures { OnOk result (out.new.items ≡ appended out.old.items (reason_pieces (reasons.told reason.entry))) }
{
    match reason {
        Reason::Record(part) => put_part(out, b"reason record ", part),
        Reason::Sheet(part) => put_part(out, b"reason sheet ", part),
    }
}

fn put_field(out: &mut Vec<u8>, fault: FieldFault) -> Result<(), AllocError>
    ensures { OnOk result (out.new.items ≡ appended out.old.items (field_pieces fault.field fault.offset)) }
{
    put_keyed_number(out, b" field ", u64::from(fault.field))?;
    put_keyed_number(out, b" offset ", fault.offset as u64)
}

fn put_at(out: &mut Vec<u8>, at: Option<FieldFault>) -> Result<(), AllocError>
    ensures { OnOk result (out.new.items ≡ appended out.old.items (value_pieces (fault_values at))) }
{
    match at {
        Some(fault) => put_field(out, fault),
        None => Ok(()),
    }
}

fn put_refused(out: &mut Vec<u8>, verb: Verb, refusal: Refusal) -> Result<(), AllocError>
    ensures { OnOk result (out.new.items ≡ appended out.old.items (refused_pieces verb (said_refusal refusal))) }
{
    put(out, verb_text(verb))?;
    put_keyed_number(out, b" refused ", u64::from(refusal.number))?;
    put_at(out, refusal.at)
}

fn put_error(out: &mut Vec<u8>, fault: LineFault) -> Result<(), AllocError>
    ensures { OnOk result (out.new.items ≡ appended out.old.items (error_pieces fault)) }
{
    put(out, b"error ")?;
    put(out, fault.text())
}

fn put_answer(out: &mut Vec<u8>, answer: Answer<'_>) -> Result<(), AllocError>
    ensures { OnOk result (out.new.items ≡ grouped out.old.items (answer_groups (told_answer answer.entry))) }
{
    match answer {
        Answer::Record(bytes) => put_written(out, bytes),
        Answer::Envelope(envelope) => put_envelope(out, envelope),
        Answer::Way(way) => put_way(out, way),
        Answer::Reason(reason) => put_reason(out, reason),
        Answer::Refusal(verb, refusal) => put_refused(out, verb, refusal),
        Answer::Error(fault) => put_error(out, fault),
    }
}

// Adds the answer to line `number`.
pub fn write_answer(number: u64, answer: Answer<'_>, out: &mut Vec<u8>) -> Result<(), AllocError>
    ensures { OnOk result (out.new.items ≡ answer_onto out.old.items number (told_answer answer.entry)) }
{
    begin_line(out, number)?;
    put_answer(out, answer)?;
    end_line(out)
}

fn put_end(out: &mut Vec<u8>, counts: Counts) -> Result<(), AllocError>
    ensures { OnOk result (out.new.items ≡ end_onto out.old.items counts) }
{
    put_keyed_number(out, b"end lines ", counts.lines)?;
    put_keyed_number(out, b" calls ", counts.calls)?;
    put_keyed_number(out, b" refused ", counts.refused)?;
    put_keyed_number(out, b" errors ", counts.errors)?;
    end_line(out)
}

// Adds the last line of a run. Every line is added whole behind what was there.
pub fn write_end(counts: Counts, out: &mut Vec<u8>) -> Result<(), AllocError>
    ensures line { OnOk result (out.new.items ≡ end_onto out.old.items counts) }
    ensures behind { LinesStandBehind }
{
    put_end(out, counts)
}
