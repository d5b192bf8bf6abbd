// What is answered to one question.
ghost use Rattle.std.specs.Prelude.{◌≡◌};
ghost use Rattle.envelope.specs.Decoding.{decode};
ghost use Rattle.writing.specs.Answers.{write_answer};
ghost use Rattle.routing.specs.Choice.{chosen_way};
ghost use Rattle.reason.specs.Reasons.{reason_of};
ghost use Rattle.keyed.specs.Fields.{field_text};
ghost use Rattle.answers.specs.Answers.{told_answer};
ghost use Rattle.service.specs.Replies.{read_reply, write_reply, way_reply, reason_reply};

use answers::answer::{Answer, Verb};
use envelope_reading::reading::read;
use keyed::fields::FieldText;
use reason::status::reason;
use routing::choice::choose;
use routing::row::RouteRow;
use writing::writing::write;

pub(crate) fn read_reply(bytes: &[u8]) -> Answer<'_>
    ensures { told_answer result ≡ read_reply (decode bytes.now) }
{
    match read(bytes) {
        Ok(envelope) => Answer::Envelope(envelope),
        Err(fault) => Answer::Refusal(Verb::Envelope, fault.into()),
    }
}

// The longest record. The room for it is an array, so that writing one asks for no memory.
pub(crate) const ROOM: usize = 2048;

pub(crate) fn write_reply<'a>(fields: &FieldText, room: &'a mut [u8; ROOM]) -> Answer<'a>
    ensures { told_answer result ≡ write_reply (field_text fields.now) (write_answer (field_text fields.now) 2048) }
{
    match write(fields.lent(), room) {
        Ok(n) => Answer::Record(&room[0..n]),
        Err(fault) => Answer::Refusal(Verb::Envelope, fault.into()),
    }
}

pub(crate) fn way_reply(rows: &[RouteRow], target: &[u8], dataflow: &[u8]) -> Answer<'static>
    ensures { told_answer result ≡ way_reply (chosen_way rows.now target.now dataflow.now) }
{
    match choose(rows, target, dataflow) {
        Ok(way) => Answer::Way(way),
        Err(fault) => Answer::Refusal(Verb::Way, fault.into()),
    }
}

pub(crate) fn reason_reply<'a>(bytes: &'a [u8], sheet: &'a [u8]) -> Answer<'a>
    ensures { told_answer result ≡ reason_reply (reason_of bytes.now sheet.now) }
{
    match reason(bytes, sheet) {
        Ok(found) => Answer::Reason(found),
        Err(fault) => Answer::Refusal(Verb::Reason, fault.into()),
    }
}
