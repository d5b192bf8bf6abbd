// The calls on a joined spool, by the part that the place falls in.
ghost use Rattle.std.specs.Prelude.{◌≡◌, Err};
ghost use Rattle.spool.specs.declared.fault.SpoolFault.TheVariants.{NoPlace};
ghost use Rattle.spool.specs.Meaning.{length_answer, store_answer, stored, clear_answer, cleared, copy_answer, copied};
ghost use Rattle.joined_spool.specs.Joins.{count_in, part_answer, answer_in, first_after, second_after};

use crate::Joined;
use spool::Spool;
use spool::fault::SpoolFault;
use spool::guards::check_place;
use spool::sizes::MOST_PLACES;

// A part, and the place in it. A place past the first's is handed on to the second, less the number of the first's places.
enum Part {
    First(usize),
    Second(usize),
}

impl<A: Spool, B: Spool> Joined<A, B> {
    fn part_of(&self, place: usize) -> Result<Part, SpoolFault>
        ensures { result ≡ part_answer place (A.Spool.held self.now.first) }
    {
        let firsts = self.first.count();
        if place < firsts {
            return Ok(Part::First(place));
        }
        check_place(place, MOST_PLACES)?;
        Ok(Part::Second(place - firsts))
    }

    pub(crate) fn count_parts(&self) -> usize
        ensures { result ≡ count_in (A.Spool.held self.now.first) (B.Spool.held self.now.second) }
    {
        (self.first.count() + self.second.count()).min(MOST_PLACES)
    }

    pub(crate) fn length_in_part(&self, place: usize) -> Result<usize, SpoolFault>
        ensures { result ≡ answer_in length_answer (Err NoPlace) place (A.Spool.held self.now.first) (B.Spool.held self.now.second) }
    {
        match self.part_of(place)? {
            Part::First(at) => self.first.length(at),
            Part::Second(at) => self.second.length(at),
        }
    }

    pub(crate) fn store_in_part(&mut self, place: usize, bytes: &[u8]) -> Result<(), SpoolFault>
        ensures answer { result ≡ answer_in (λ q. store_answer q bytes.now) (Err NoPlace) place (A.Spool.held self.old.first) (B.Spool.held self.old.second) }
        ensures first { A.Spool.held self.new.first ≡ first_after (λ q. stored q bytes.now) place (A.Spool.held self.old.first) }
        ensures second { B.Spool.held self.new.second ≡ second_after (λ q. stored q bytes.now) place (A.Spool.held self.old.first) (B.Spool.held self.old.second) }
    {
        match self.part_of(place)? {
            Part::First(at) => self.first.store(at, bytes),
            Part::Second(at) => self.second.store(at, bytes),
        }
    }

    pub(crate) fn clear_in_part(&mut self, place: usize) -> Result<(), SpoolFault>
        ensures answer { result ≡ answer_in clear_answer (Err NoPlace) place (A.Spool.held self.old.first) (B.Spool.held self.old.second) }
        ensures first { A.Spool.held self.new.first ≡ first_after cleared place (A.Spool.held self.old.first) }
        ensures second { B.Spool.held self.new.second ≡ second_after cleared place (A.Spool.held self.old.first) (B.Spool.held self.old.second) }
    {
        match self.part_of(place)? {
            Part::First(at) => self.first.clear(at),
            Part::Second(at) => self.second.clear(at),
        }
    }

    pub(crate) fn copy_out_of_part(&self, place: usize, buf: &mut [u8]) -> Result<usize, SpoolFault>
        ensures answer { result ≡ answer_in (λ q. copy_answer q buf.old) (Err NoPlace) place (A.Spool.held self.now.first) (B.Spool.held self.now.second) }
        ensures after { buf.new ≡ answer_in (λ q. copied q buf.old) buf.old place (A.Spool.held self.now.first) (B.Spool.held self.now.second) }
    {
        match self.part_of(place)? {
            Part::First(at) => self.first.copy_out(at, buf),
            Part::Second(at) => self.second.copy_out(at, buf),
        }
    }
}
