// The reason of a status, from its record and a text sheet.
ghost use Rattle.std.specs.Prelude.{◌≡◌, IfOk};
ghost use Rattle.envelope.specs.Views.{seen};
ghost use Rattle.reason.specs.Reasons.{told, told_answer, own_or_line, reason_of, OfStatus, Within};

use crate::answer::Reason;
use crate::sheet::line_of;
use envelope::fault::RecordFault;
use envelope::parts::{Kind, Part};
use envelope_reading::reading::{kind_of, read};

// The status's own text, or where it is empty the sheet's for its code.
fn own_or_line<'r, 's>(own: Part<'r>, code: u16, sheet: &'s [u8]) -> Reason<'r, 's>
    ensures { told result ≡ own_or_line sheet.now code (seen own.entry) }
{
    if own.bytes.len() != 0 {
        return Reason::Record(own);
    }
    match line_of(sheet, code) {
        Some(text) => Reason::Sheet(text),
        None => Reason::Record(own),
    }
}

fn find_reason<'r, 's>(rec: &'r [u8], sheet: &'s [u8]) -> Result<Reason<'r, 's>, RecordFault>
    ensures { told_answer result ≡ reason_of rec.now sheet.now }
{
    match kind_of(rec)? {
        Kind::Message => Err(RecordFault::Kind),
        Kind::Status => {
            let envelope = read(rec)?;
            Ok(own_or_line(envelope.parts().rest, envelope.code(), sheet))
        }
    }
}

// The reason that the record, a status, gives: its own text, or where that is empty the text of the sheet's first line with
// its code, or where there is none the empty end of the record.
pub fn reason<'r, 's>(rec: &'r [u8], sheet: &'s [u8]) -> Result<Reason<'r, 's>, RecordFault>
    ensures value { told_answer result ≡ reason_of rec.now sheet.now }
    ensures reasoned { IfOk result (λ x. OfStatus rec.now sheet.now (told x)) }
    ensures placed { IfOk result (λ x. Within rec.now sheet.now (told x)) }
{
    find_reason(rec, sheet)
}
