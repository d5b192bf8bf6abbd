// Giving the oldest entry of the inbox to the local office, and the oldest notice to its contacts.
ghost use Rattle.std.specs.Prelude.{◌≡◌};
ghost use Rattle.relay.specs.States.{timed};
ghost use Rattle.searches.specs.Earliest.{Entry, Notified, earliest};
ghost use Rattle.office.specs.Gifts.{kind_at, taken_answer, taken_buffer, taken_state, oldest_answer, oldest_buffer, oldest_state};

use envelope::parts::Kind;
use relay::relay::Relay;
use searches::search::Found;
use searches::table::{oldest_entry, oldest_notice};
use spool::Spool;
use spool::fault::SpoolFault;
use standing::standing::Standing;

// The kind of the envelope that was given, and how many bytes it has.
#[derive(Clone, Copy)]
pub struct Given {
    pub kind: Kind,
    pub length: usize,
}

// A message where the place is free. An `Option` would need a branch that gives up, which no run takes.
fn kind_at(standing: Standing) -> Kind
    ensures { result ≡ kind_at standing }
{
    match standing {
        Standing::Free => Kind::Message,
        Standing::Waiting { about, .. }
        | Standing::Out { about, .. }
        | Standing::Inbox { about, .. }
        | Standing::Notice { about, .. } => about.kind,
    }
}

// Takes the clock reading, copies the record at the place that was found, and frees the place.
fn give<S: Spool>(
    relay: &mut Relay<S>,
    clock: u32,
    found: Option<Found>,
    buf: &mut [u8],
) -> Result<Option<Given>, SpoolFault>
    ensures answer { result ≡ taken_answer (timed relay.old clock) found buf.old }
    ensures buffer { buf.new ≡ taken_buffer (timed relay.old clock) found buf.old }
    ensures state { relay.new ≡ taken_state (timed relay.old clock) found buf.old }
{
    relay.tick(clock);
    let Some(found) = found else {
        return Ok(None);
    };
    let place = found.place;
    let length = relay.spool.copy_out(place, buf)?;
    let kind = kind_at(relay.table.at(place));
    relay.discharge(place);
    Ok(Some(Given { kind, length }))
}

// The record that is longest in the inbox, then at the lowest place, goes to the local office; none where the inbox is
// empty. It stays where the buffer is too short for it, and the buffer is as it was.
pub fn collect<S: Spool>(
    relay: &mut Relay<S>,
    clock: u32,
    buf: &mut [u8],
) -> Result<Option<Given>, SpoolFault>
    ensures answer { result ≡ oldest_answer Entry relay.old clock buf.old }
    ensures buffer { buf.new ≡ oldest_buffer Entry relay.old clock buf.old }
    ensures state { relay.new ≡ oldest_state Entry relay.old clock buf.old }
{
    let found = oldest_entry(&relay.table);
    give(relay, clock, found, buf)
}

// The notice that is oldest, then at the lowest place, goes to its contacts; none where there is none. It stays where the
// buffer is too short for it, and the buffer is as it was.
pub fn notice<S: Spool>(
    relay: &mut Relay<S>,
    clock: u32,
    buf: &mut [u8],
) -> Result<Option<Given>, SpoolFault>
    ensures answer { result ≡ oldest_answer Notified relay.old clock buf.old }
    ensures buffer { buf.new ≡ oldest_buffer Notified relay.old clock buf.old }
    ensures state { relay.new ≡ oldest_state Notified relay.old clock buf.old }
{
    let found = oldest_notice(&relay.table);
    give(relay, clock, found, buf)
}
