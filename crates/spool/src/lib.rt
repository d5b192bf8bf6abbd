// What every spool does, whatever it is made of, and the code that works over any.

#![tactic(auto)]

pub mod fault;
pub mod guards;
pub mod sizes;
pub mod uses;

ghost use Rattle.std.specs.Prelude.{◌≡◌, ℕ, ◌≤◌, List, length};
ghost use Rattle.spool.specs.Meaning.{length_answer, store_answer, stored, clear_answer, cleared, copy_answer, copied};
ghost use Rattle.spool.specs.Short.{Short};

use crate::fault::SpoolFault;

// A spool is where the bytes of held envelopes lie: at most 256 places, numbered from 0 and never more or fewer, each empty
// or holding the 1 to 2,048 bytes of one envelope. A call that is refused changes nothing.
pub trait Spool {
    // The meaning of a spool: for each place the bytes that it holds, none where it is empty.
    ghost held: { Self → List (List ℕ) };

    // There are at most 256 places.
    ghost few: { (s : Self) → length (held s) ≤ 256 };

    // No place holds more than 2,048 bytes.
    ghost short: { (s : Self) → Short (held s) };

    // How many places there are.
    fn count(&self) -> usize
        ensures { result ≡ length (held self.now) };

    // How many bytes the place holds, 0 where it is empty.
    fn length(&self, place: usize) -> Result<usize, SpoolFault>
        ensures { result ≡ length_answer place (held self.now) };

    // Makes the place hold exactly these bytes, in the place of what it held.
    fn store(&mut self, place: usize, bytes: &[u8]) -> Result<(), SpoolFault>
        ensures answer { result ≡ store_answer place bytes.now (held self.old) }
        ensures after { held self.new ≡ stored place bytes.now (held self.old) };

    // Empties the place.
    fn clear(&mut self, place: usize) -> Result<(), SpoolFault>
        ensures answer { result ≡ clear_answer place (held self.old) }
        ensures after { held self.new ≡ cleared place (held self.old) };

    // Writes what the place holds over the first bytes of the buffer, and answers how many there are.
    fn copy_out(&self, place: usize, buf: &mut [u8]) -> Result<usize, SpoolFault>
        ensures answer { result ≡ copy_answer place buf.old (held self.now) }
        ensures after { buf.new ≡ copied place buf.old (held self.now) };
}
