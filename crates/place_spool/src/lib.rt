// A place spool: a spool over the caller's memory, a cell of it for each place.

#![tactic(auto)]

mod cell;
mod memory;

ghost use Rattle.std.specs.Prelude.{◌≡◌, [], replicate};
ghost use Rattle.spool.specs.Meaning.{store_answer, stored, clear_answer, cleared};
ghost use Rattle.place_spool.specs.Memory.{places_in, memory_held, tail, wiped, memory_stored, memory_cleared, memory_few, memory_short};

use spool::Spool;
use spool::fault::SpoolFault;
use spool::guards::{check_bytes, check_place, check_room};

#[derive(Drop)]
pub struct PlaceSpool<'a> {
    memory: &'a mut [u8],
}

impl<'a> PlaceSpool<'a> {
    // Wipes the memory, its tail too: every place is then empty.
    pub fn new(memory: &'a mut [u8]) -> PlaceSpool<'a>
        ensures memory { result.memory.now ≡ wiped memory.old }
        ensures held { memory_held result.memory.now ≡ replicate (places_in memory.old) [] }
        ensures lender { result.memory.ghost_name ≡ memory.entry.ghost_name }
    {
        memory::wipe(memory);
        PlaceSpool { memory }
    }
}

// Storing and clearing also promise what becomes of the memory, byte for byte, and that it is still the same memory.
impl<'a> Spool for PlaceSpool<'a> {
    ghost held = { λ s. memory_held s.memory.now };

    ghost few = { λ s. memory_few s.memory.now };

    ghost short = { λ s. memory_short s.memory.now };

    fn count(&self) -> usize {
        memory::cells(self.memory).len()
    }

    fn length(&self, place: usize) -> Result<usize, SpoolFault> {
        let cells = memory::cells(self.memory);
        check_place(place, cells.len())?;
        Ok(cell::held_length(&cells[place]))
    }

    fn store(&mut self, place: usize, bytes: &[u8]) -> Result<(), SpoolFault>
        ensures answer { result ≡ store_answer place bytes.now (memory_held self.old.memory.now) }
        ensures after { memory_held self.new.memory.now ≡ stored place bytes.now (memory_held self.old.memory.now) }
        ensures memory { self.new.memory.now ≡ memory_stored place bytes.now self.old.memory.now }
        ensures tail { tail self.new.memory.now ≡ tail self.old.memory.now }
        ensures lender { self.new.memory.ghost_name ≡ self.old.memory.ghost_name }
    {
        check_place(place, self.count())?;
        check_bytes(bytes)?;
        memory::put_at(self.memory, place, bytes);
        Ok(())
    }

    fn clear(&mut self, place: usize) -> Result<(), SpoolFault>
        ensures answer { result ≡ clear_answer place (memory_held self.old.memory.now) }
        ensures after { memory_held self.new.memory.now ≡ cleared place (memory_held self.old.memory.now) }
        ensures memory { self.new.memory.now ≡ memory_cleared place self.old.memory.now }
        ensures tail { tail self.new.memory.now ≡ tail self.old.memory.now }
        ensures lender { self.new.memory.ghost_name ≡ self.old.memory.ghost_name }
    {
        check_place(place, self.count())?;
        memory::put_at(self.memory, place, &[]);
        Ok(())
    }

    fn copy_out(&self, place: usize, buf: &mut [u8]) -> Result<usize, SpoolFault> {
        let cells = memory::cells(self.memory);
        check_place(place, cells.len())?;
        let length = cell::held_length(&cells[place]);
        check_room(length, buf)?;
        cell::copy_to(&cells[place], buf);
        Ok(length)
    }
}
