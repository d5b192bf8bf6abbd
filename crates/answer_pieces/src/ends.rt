// How each line begins and ends.
ghost use Rattle.std.specs.Prelude.{◌≡◌, [], ◌∷◌, ◌++◌, codes, decimal, OnOk};

use crate::pieces::put;
use digits::number::write_number;
use std::alloc::AllocError;

// The number of the line that is answered, and a space.
pub fn begin_line(out: &mut Vec<u8>, number: u64) -> Result<(), AllocError>
    ensures { OnOk result (out.new.items ≡ (out.old.items ++ decimal number) ++ codes " ") }
{
    write_number(number, out)?;
    put(out, b" ")
}

// The line feed that ends a line.
pub fn end_line(out: &mut Vec<u8>) -> Result<(), AllocError>
    ensures { OnOk result (out.new.items ≡ out.old.items ++ (10 ∷ [])) }
{
    put(out, b"\n")
}
