// The relay itself, over any spool.
ghost use Rattle.std.specs.Prelude.{◌≡◌, replicate};
ghost use Rattle.text.specs.Addresses.{address_text};
ghost use Rattle.standing.specs.declared.standing.Standing.TheVariants.{Free};
ghost use Rattle.relay.specs.States.{fresh, timed};
ghost use Rattle.relay.specs.Moves.{settled, discharged};

use routing::row::Way;
use spool::Spool;
use spool::uses::clear_all;
use standing::standing::About;
use standing::table::Table;
use std::marker::Model;
use text::address::Address;

// A store-and-forward relay. Its fields are open, since the calls on it stand in crates of their own; no call relies on how
// they came about: each has a defined result for whatever they hold. A contract sees a relay as its state.
#[derive(Drop)]
pub struct Relay<S: Spool> {
    // the greatest clock reading so far
    pub time: u32,
    // how many tries were handed out: the last try number given
    pub given: u32,
    pub address: Address,
    pub table: Table,
    pub spool: S,
}

impl<S: Spool> Model for Relay<S> {
    ghost use Rattle.relay.specs.States.{State};

    ghost Value = { State };

    ghost use Rattle.relay.specs.Seen.{view as seen_over};

    ghost view = { λ r. seen_over S.held r };

    ghost use Rattle.std.specs.Prelude.{◌≡◌, length};

    // A standing for each of 256 places, whatever the calls.
    ghost invariant = { λ r. length r.table.standings ≡ 256 };
}

impl<S: Spool> Relay<S> {
    // A relay at time 0 with every place cleared, whatever the spool held.
    pub fn new(address: Address, mut spool: S) -> Relay<S>
        ensures { result ≡ fresh (address_text address) (S.held spool) }
    {
        clear_all(&mut spool);
        Relay {
            time: 0,
            given: 0,
            address,
            table: Table::new(),
            spool,
        }
    }

    // Takes a clock reading: the relay's time never goes back.
    pub fn tick(&mut self, clock: u32)
        ensures { self.new ≡ timed self.old clock }
    {
        self.time = self.time.max(clock);
    }

    // Puts an envelope into a place: in the inbox where its way is the local office, else waiting and due now.
    pub fn settle(&mut self, place: usize, way: Way, about: About, bytes: &[u8])
        ensures { self.new ≡ settled self.old place way about bytes.now }
    {
        let _ = self.spool.store(place, bytes);
        match way {
            Way::Local => self.table.enter(place, self.time, about),
            Way::Neighbour(hop) => self.table.wait(place, hop, self.time as u64, about),
        }
    }

    // Empties a place in the spool, and frees it.
    pub fn discharge(&mut self, place: usize)
        ensures { self.new ≡ discharged self.old place }
    {
        let _ = self.spool.clear(place);
        self.table.free(place);
    }
}
