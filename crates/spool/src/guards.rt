// What every spool refuses, said once for all of them.
ghost use Rattle.std.specs.Prelude.{◌≡◌, ◌<◌, ◌≤◌, length, IfOk};
ghost use Rattle.spool.specs.Guards.{place_answer, bytes_answer, room_answer};

use crate::fault::SpoolFault;
use crate::sizes::is_storable;

// Refuses a place that is not one of so many.
pub fn check_place(place: usize, count: usize) -> Result<(), SpoolFault>
    ensures answer { result ≡ place_answer place count }
    ensures within { IfOk result (λ _. place < count) }
{
    if place < count {
        Ok(())
    } else {
        Err(SpoolFault::NoPlace)
    }
}

// Refuses bytes that no place takes.
pub fn check_bytes(bytes: &[u8]) -> Result<(), SpoolFault>
    ensures answer { result ≡ bytes_answer bytes.now }
    ensures within { IfOk result (λ _. length bytes.now ≤ 2048) }
{
    if is_storable(bytes.len()) {
        Ok(())
    } else {
        Err(SpoolFault::Unstorable)
    }
}

// Refuses a buffer that has no room for so many bytes.
pub fn check_room(needed: usize, buf: &[u8]) -> Result<(), SpoolFault>
    ensures answer { result ≡ room_answer needed buf.now }
    ensures within { IfOk result (λ _. needed ≤ length buf.now) }
{
    if needed <= buf.len() {
        Ok(())
    } else {
        Err(SpoolFault::ShortBuffer)
    }
}
