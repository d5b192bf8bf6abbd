// The memory of a place spool: a cell for each place, one after another.
ghost use Rattle.std.specs.Prelude.{◌≡◌, ◌<◌, ◌≤◌, map, length, slice_set};
ghost use Rattle.place_spool.specs.Cells.{cell_held};
ghost use Rattle.place_spool.specs.Memory.{memory_held, tail, wiped, framed};

use crate::cell;
use crate::cell::CELL;
use spool::sizes::MOST_PLACES;

// The cells of the places: each full cell of the memory, and no more than a spool may have places.
pub(crate) fn cells(memory: &[u8]) -> &[[u8; CELL]]
    ensures held { map cell_held result.now ≡ memory_held memory.now }
    ensures count { length result.now ≡ length (memory_held memory.now) }
{
    let (full, _) = memory.as_chunks::<CELL>();
    &full[..full.len().min(MOST_PLACES)]
}

// The cell is found by its offset, since of a memory that is lent as chunks to be written the library does not say what it
// holds afterwards.
pub(crate) fn put_at(memory: &mut [u8], place: usize, bytes: &[u8])
    requires { (place < length (memory_held memory.old)) × (length bytes.now ≤ 2048) }
    ensures memory { memory.new ≡ framed place bytes.now memory.old }
    ensures held { memory_held memory.new ≡ slice_set (memory_held memory.old) place bytes.now }
    ensures tail { tail memory.new ≡ tail memory.old }
{
    let start = CELL * place;
    cell::put(&mut memory[start..start + CELL], bytes);
}

// Writes zero into every byte.
pub(crate) fn wipe(memory: &mut [u8])
    ensures { memory.new ≡ wiped memory.old }
{
    memory.fill(0);
}
