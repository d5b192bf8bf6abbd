// Numbers, hex digits and texts, as words of a call.
ghost use Rattle.std.specs.Prelude.{◌≡◌, vec_items};
ghost use Rattle.std.specs.Option.{option_map};
ghost use Rattle.digits.specs.Hexes.{hex_of};
ghost use Rattle.arguments.specs.Faults.{Gives, or_fault};
ghost use Rattle.arguments.specs.Values.{number_argument, after_mark, hex_argument, text_argument};
ghost use Rattle.arguments.specs.declared.fault.LineFault.TheVariants.{BadHex};

use crate::fault::{CallFault, LineFault};
use digits::hex::hex;
use digits::number::number;
use std::alloc::Global;
use words::cut::is_word;

// A number of at most `most`.
pub fn read_number(word: &[u8], most: u64) -> Result<u64, LineFault>
    ensures { result ≡ number_argument most word.now }
{
    number(word, most).ok_or(LineFault::BadNumber)
}

// What stands after `0x`, where the word begins with it.
pub fn after_mark(word: &[u8]) -> Option<&[u8]>
    ensures { option_map (λ x. x.now) result ≡ after_mark word.now }
{
    word.strip_prefix(b"0x")
}

fn read_digits(heap: Global, digits: &[u8]) -> Result<Vec<u8>, CallFault>
    ensures { Gives vec_items result (or_fault BadHex (hex_of digits.now)) }
{
    let bytes = hex(heap, digits)?;
    Ok(bytes.ok_or(LineFault::BadHex)?)
}

// Hex digits, with or without `0x`, or `-` for no bytes.
pub fn read_hex(heap: Global, word: &[u8]) -> Result<Vec<u8>, CallFault>
    ensures { Gives vec_items result (hex_argument word.now) }
{
    if is_word(word, b"-") {
        return Ok(Vec::new(heap));
    }
    read_digits(heap, after_mark(word).unwrap_or(word))
}

// The bytes as they stand, or `0x` and hex digits.
pub fn read_text(heap: Global, word: &[u8]) -> Result<Vec<u8>, CallFault>
    ensures { Gives vec_items result (text_argument word.now) }
{
    match after_mark(word) {
        Some(digits) => read_digits(heap, digits),
        None => Ok(word.to_vec(heap)?),
    }
}
