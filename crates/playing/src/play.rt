// A whole list of calls.
ghost use Rattle.std.specs.Prelude.{◌≡◌, ◌<◌, map, length, take, MatchResult, IfOk};
ghost use Rattle.text.specs.Addresses.{address_text};
ghost use Rattle.account.specs.Laws.{Laws};
ghost use Rattle.player.specs.Steps.{world};
ghost use Rattle.player.specs.Runs.{account};
ghost use Rattle.playing.specs.Logs.{call_of, event_of};
ghost use Rattle.playing.specs.Plays.{begun, Played};

use crate::entry::{Entry, enter};
use message_rows::message::MessageRow;
use player::call::Call;
use player::player::Player;
use spool::Spool;
use status_rows::status::StatusRow;
use text::address::Address;

// Makes a new relay over the spool, wipes both ledgers, and plays every call in order. Each is entered in the log, from its
// front on: a call, an entry. A log too short for all calls is refused before anything moves, and the spool comes back.
pub fn play<'a, S: Spool>(
    address: Address,
    spool: S,
    messages: &mut [MessageRow],
    statuses: &mut [StatusRow],
    calls: &[Call<'a>],
    log: &mut [Entry<'a>],
) -> Result<Player<S>, S>
    ensures outcome { IfOk result (λ player. Played (begun (address_text address) (S.held spool) (length messages.old) (length statuses.old)) calls.now log.old log.new (world player.relay player.connections.slots messages.new statuses.new)) }
    ensures played { MatchResult result (λ player. (map call_of (take (length calls.now) log.new) ≡ calls.now) × Laws (account (map event_of (take (length calls.now) log.new))) player.relay) (λ s. (s ≡ spool) × (length log.old < length calls.now) × (log.new ≡ log.old) × (messages.new ≡ messages.old) × (statuses.new ≡ statuses.old)) }
{
    if log.len() < calls.len() {
        return Err(spool);
    }
    let mut player = Player::new(address, spool, messages, statuses);
    // By index into the log, since of a slice that is lent for writing through a `zip` nothing is known afterwards.
    for (i, call) in calls.iter().enumerate() {
        enter(&mut player, messages, statuses, *call, &mut log[i]);
    }
    Ok(player)
}
