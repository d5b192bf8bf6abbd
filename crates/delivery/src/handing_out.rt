// Handing a waiting envelope out for a try.
ghost use Rattle.std.specs.Prelude.{◌≡◌, max};
ghost use Rattle.delivery.specs.HandOuts.{hop_of, hand_out_answer, hand_out_state, Fair};

use crate::fault::HandOutFault;
use relay::relay::Relay;
use searches::table::next_due;
use spool::Spool;
use standing::standing::Standing;

// The place of the envelope, the number of the try, and the neighbour that it is for.
#[derive(Clone, Copy)]
pub struct HandOut {
    pub place: usize,
    pub number: u32,
    pub neighbour: u8,
}

// 0 where nothing waits. An `Option` would need a branch that gives up, which no run takes.
fn hop_of(standing: Standing) -> u8
    ensures { result ≡ hop_of standing }
{
    match standing {
        Standing::Waiting { hop, .. } => hop,
        _ => 0,
    }
}

fn give_out<S: Spool>(relay: &mut Relay<S>, clock: u32) -> Result<Option<HandOut>, HandOutFault>
    ensures answer { result ≡ hand_out_answer relay.old clock }
    ensures state { relay.new ≡ hand_out_state relay.old clock }
{
    relay.tick(clock);
    let Some(found) = next_due(&relay.table, relay.time) else {
        return Ok(None);
    };
    if relay.given == u32::MAX {
        return Err(HandOutFault::TriesUsed);
    }
    let place = found.place;
    let neighbour = hop_of(relay.table.at(place));
    relay.given += 1;
    relay.table.hand_out(place, relay.given, relay.time);
    Ok(Some(HandOut {
        place,
        number: relay.given,
        neighbour,
    }))
}

// Of the live waiting envelopes that are due, the one with the least due time, then the lowest place, is out from now on
// under the next try number; none where none is due.
pub fn hand_out<S: Spool>(relay: &mut Relay<S>, clock: u32) -> Result<Option<HandOut>, HandOutFault>
    ensures answer { result ≡ hand_out_answer relay.old clock }
    ensures state { relay.new ≡ hand_out_state relay.old clock }
    ensures fair { Fair (max relay.old.time clock) relay.old.standings result }
{
    give_out(relay, clock)
}
