// A joined spool: two spools as one, the first's places and then the second's, none past 256.

#![tactic(auto)]

mod parts;

ghost use Rattle.std.specs.Prelude.{◌≡◌};
ghost use Rattle.spool.specs.Meaning.{store_answer, stored, clear_answer, cleared};
ghost use Rattle.joined_spool.specs.Joins.{joined, first_after, second_after, joined_few, joined_short};

use spool::Spool;
use spool::fault::SpoolFault;

#[derive(Drop)]
pub struct Joined<A, B> {
    first: A,
    second: B,
}

impl<A: Spool, B: Spool> Joined<A, B> {
    // Both hold what they held.
    pub fn new(first: A, second: B) -> Joined<A, B>
        ensures held { joined (A.Spool.held result.first) (B.Spool.held result.second) ≡ joined (A.Spool.held first) (B.Spool.held second) }
        ensures first { result.first ≡ first }
        ensures second { result.second ≡ second }
    {
        Joined { first, second }
    }
}

// Storing and clearing also promise what becomes of each part: the places of the second that are out of reach never change.
impl<A: Spool, B: Spool> Spool for Joined<A, B> {
    ghost held = { λ s. joined (A.Spool.held s.first) (B.Spool.held s.second) };

    ghost few = { λ s. joined_few (A.Spool.held s.first) (B.Spool.held s.second) };

    ghost short = { λ s. joined_short (A.Spool.held s.first) (B.Spool.held s.second) (A.Spool.short s.first) (B.Spool.short s.second) };

    fn count(&self) -> usize {
        self.count_parts()
    }

    fn length(&self, place: usize) -> Result<usize, SpoolFault> {
        self.length_in_part(place)
    }

    fn store(&mut self, place: usize, bytes: &[u8]) -> Result<(), SpoolFault>
        ensures answer { result ≡ store_answer place bytes.now (joined (A.Spool.held self.old.first) (B.Spool.held self.old.second)) }
        ensures after { joined (A.Spool.held self.new.first) (B.Spool.held self.new.second) ≡ stored place bytes.now (joined (A.Spool.held self.old.first) (B.Spool.held self.old.second)) }
        ensures first { A.Spool.held self.new.first ≡ first_after (λ q. stored q bytes.now) place (A.Spool.held self.old.first) }
        ensures second { B.Spool.held self.new.second ≡ second_after (λ q. stored q bytes.now) place (A.Spool.held self.old.first) (B.Spool.held self.old.second) }
    {
        self.store_in_part(place, bytes)
    }

    fn clear(&mut self, place: usize) -> Result<(), SpoolFault>
        ensures answer { result ≡ clear_answer place (joined (A.Spool.held self.old.first) (B.Spool.held self.old.second)) }
        ensures after { joined (A.Spool.held self.new.first) (B.Spool.held self.new.second) ≡ cleared place (joined (A.Spool.held self.old.first) (B.Spool.held self.old.second)) }
        ensures first { A.Spool.held self.new.first ≡ first_after cleared place (A.Spool.held self.old.first) }
        ensures second { B.Spool.held self.new.second ≡ second_after cleared place (A.Spool.held self.old.first) (B.Spool.held self.old.second) }
    {
        self.clear_in_part(place)
    }

    fn copy_out(&self, place: usize, buf: &mut [u8]) -> Result<usize, SpoolFault> {
        self.copy_out_of_part(place, buf)
    }
}
