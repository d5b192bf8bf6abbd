// The report on a message: a status that goes back to where the message came from.
ghost use Rattle.std.specs.Prelude.{◌≡◌};
ghost use Rattle.text.specs.Addresses.{address_text};
ghost use Rattle.envelope.specs.Views as envelope;
ghost use Rattle.envelope_fields.specs.Plain.{plain};
ghost use Rattle.spool.specs.Meaning.{at};
ghost use Rattle.ending.specs.Reports.{report_on, written_as, lent, report_for, seen_report, is_reported, reported};

use envelope::parts::{Envelope, Parts};
use envelope_fields::fields::{Content, Fields};
use envelope_reading::reading::read;
use relay::about::about;
use relay::relay::Relay;
use routing::row::Way;
use spool::Spool;
use spool::uses::copy_whole;
use standing::standing::About;
use text::address::Address;
use writing::writing::write;

// A report: its record, and what is kept of it.
#[derive(Clone, Copy)]
struct Written<'b> {
    bytes: &'b [u8],
    about: About,
}

// The bytes at a place; none where there is no such place.
fn bytes_at<'b, S: Spool>(spool: &S, place: usize, buf: &'b mut [u8; 2048]) -> &'b [u8]
    ensures { result.now ≡ at place (S.held spool.now) }
{
    let length = copy_whole(spool, place, buf).unwrap_or(0);
    &buf[..length]
}

// The status that tells of a message by this code, as fields.
fn fields_of_report<'m>(address: &'m [u8], code: u16, message: Parts<'m>) -> Fields<'m>
    ensures { plain result ≡ report_on address.now code (envelope.view message.entry) }
{
    Fields {
        content: Content::Status(code),
        todt: message.todt,
        to: message.to,
        ar: message.ar,
        vb: message.vb,
        on: message.on.bytes,
        fr: address,
        ad: message.fr.bytes,
        df: message.df.bytes,
        ct: message.ct.bytes,
        rest: &[],
    }
}

// The record of these fields; none where a field is not in form.
fn encoded<'b>(fields: Fields<'_>, buf: &'b mut [u8; 2048]) -> Option<&'b [u8]>
    ensures { lent result ≡ written_as (plain fields.entry) }
{
    let length = write(fields, buf).ok()?;
    Some(&buf[..length])
}

// The report on a record by this code; none where the record is no message.
fn report_on<'a, 'b>(
    address: &'a Address,
    code: u16,
    rec: &'a [u8],
    buf: &'b mut [u8; 2048],
) -> Option<Written<'b>>
    ensures { seen_report result ≡ report_for (address_text address.now) code rec.now }
{
    let Ok(Envelope::Message(message)) = read(rec) else {
        return None;
    };
    let bytes = encoded(fields_of_report(address.text(), code, message), buf)?;
    Some(Written {
        bytes,
        about: about(Envelope::Status(code, message), Way::Local),
    })
}

// The message at a place gives way to a status that goes this way back, and that tells of it by this code. A place that
// holds no message is dropped instead. Says whether a report goes back.
pub(crate) fn report<S: Spool>(relay: &mut Relay<S>, place: usize, code: u16, back: Way) -> bool
    ensures reported { result ≡ is_reported relay.old place code }
    ensures state { relay.new ≡ reported relay.old place code back }
{
    // Two records of the greatest length: nothing here allocates.
    let mut message = [0; 2048];
    let mut status = [0; 2048];
    let rec = bytes_at(&relay.spool, place, &mut message);
    match report_on(&relay.address, code, rec, &mut status) {
        Some(report) => {
            relay.settle(place, back, report.about, report.bytes);
            true
        }
        None => {
            relay.discharge(place);
            false
        }
    }
}
