// A relay with its connections.
ghost use Rattle.std.specs.Prelude.{◌≡◌, [], length, replicate};
ghost use Rattle.text.specs.Addresses.{address_text};
ghost use Rattle.relay.specs.States.{fresh};
ghost use Rattle.connections.specs.declared.connections.Slot.TheVariants.{Closed};
ghost use Rattle.message_rows.specs.Messages.{freed_message};
ghost use Rattle.status_rows.specs.Statuses.{freed_status};
ghost use Rattle.player.specs.Steps.{world};
ghost use Rattle.player.specs.Runs.{account, Agrees};

use connections::connections::Connections;
use ledger::wiping::wipe;
use message_rows::message::MessageRow;
use relay::relay::Relay;
use spool::Spool;
use status_rows::status::StatusRow;
use text::address::Address;

// The ledgers go with each call that needs them, and no struct holds both for the player's life: whoever keeps their rows beside
// the player could then not lend them for one call alone.
#[derive(Drop)]
pub struct Player<S: Spool> {
    pub relay: Relay<S>,
    pub connections: Connections,
}

// Wipes both ledgers.
fn forget(messages: &mut [MessageRow], statuses: &mut [StatusRow])
    ensures messages { messages.new ≡ replicate (length messages.old) freed_message }
    ensures statuses { statuses.new ≡ replicate (length statuses.old) freed_status }
{
    wipe(messages);
    wipe(statuses);
}

// The player that `new` gives, without the account.
fn begin<S: Spool>(address: Address, spool: S) -> Player<S>
    ensures state { result.relay ≡ fresh (address_text address) (S.held spool) }
    ensures connections { result.connections.slots ≡ replicate 64 Closed }
{
    Player {
        relay: Relay::new(address, spool),
        connections: Connections::new(),
    }
}

impl<S: Spool> Player<S> {
    // A new relay over the spool with no connection admitted, and both ledgers wiped: it agrees with the account of no call.
    pub fn new(
        address: Address,
        spool: S,
        messages: &mut [MessageRow],
        statuses: &mut [StatusRow],
    ) -> Player<S>
        ensures state { result.relay ≡ fresh (address_text address) (S.held spool) }
        ensures connections { result.connections.slots ≡ replicate 64 Closed }
        ensures messages { messages.new ≡ replicate (length messages.old) freed_message }
        ensures statuses { statuses.new ≡ replicate (length statuses.old) freed_status }
        ensures begins_the_account { Agrees (account []) (world result.relay result.connections.slots messages.new statuses.new) }
    {
        forget(messages, statuses);
        begin(address, spool)
    }
}
