// Bytes as hex digits, read and written. The kit's `hex` would be no plainer: it tells faults that no answer tells, and makes a
// text of its own of all that it writes.
ghost use Rattle.std.specs.Prelude.{◌≡◌, ℕ, ◌/◌, ◌%◌, ◌<◌, true, List, [], ◌∷◌, ◌++◌, take, IfOk, Some, vec_items, vec_len, MatchResult};
ghost use Rattle.std.specs.Option.{option_map};
ghost use Rattle.digits.specs.Hexes.{nibble, paired, hex_of, hex_digit, hex_text, all_bytes};
ghost use Rattle.digits.specs.Appends.{appended};

use std::alloc::{AllocError, Global};

fn nibble_of(c: u8) -> Option<u8>
    ensures value { result ≡ nibble c }
    ensures small { (x : ℕ) → result ≡ Some x → x < 16 }
{
    match c {
        b'0'..=b'9' => Some(c - b'0'),
        b'a'..=b'f' => Some(10 + (c - b'a')),
        b'A'..=b'F' => Some(10 + (c - b'A')),
        _ => None,
    }
}

fn byte_of(a: u8, b: u8) -> Option<u8>
    ensures { result ≡ paired (nibble a) (nibble b) }
{
    let high = nibble_of(a)?;
    let low = nibble_of(b)?;
    Some(16 * high + low)
}

// The bytes that the hex digits write; none where the text is no such digits.
pub fn hex(heap: Global, text: &[u8]) -> Result<Option<Vec<u8>>, AllocError>
    ensures { IfOk result (λ bytes. option_map vec_items bytes ≡ hex_of text.now) }
{
    let mut bytes = Vec::new(heap);
    let mut rest = text;
    while let [a, b, after @ ..] = rest {
        match byte_of(*a, *b) {
            Some(x) => bytes.push(x)?,
            None => return Ok(None),
        }
        rest = after;
    }
    Ok(rest.is_empty().then_some(bytes))
}

fn hex_digit(n: u8) -> u8
    requires { n < 16 }
    ensures { result ≡ hex_digit n }
{
    if n < 10 { b'0' + n } else { b'a' - 10 + n }
}

fn push_byte(b: u8, out: &mut Vec<u8>) -> Result<(), AllocError>
    ensures { out.new.items ≡ appended result (hex_text (b ∷ [])) out.old.items }
{
    out.extend_from_slice(&[hex_digit(b / 16), hex_digit(b % 16)])
}

// Adds the bytes as hex digits, as far as there is memory.
fn push_each(bytes: &[u8], out: &mut Vec<u8>) -> Result<(), AllocError>
    ensures { MatchResult result (λ _. out.new.items ≡ out.old.items ++ hex_text bytes.now) (λ _. take (vec_len out.old) out.new.items ≡ out.old.items) }
{
    for b in bytes {
        push_byte(*b, out)?;
    }
    Ok(())
}

// Adds the bytes as hex digits, all or nothing.
fn push_hex(bytes: &[u8], out: &mut Vec<u8>) -> Result<(), AllocError>
    ensures { out.new.items ≡ appended result (hex_text bytes.now) out.old.items }
{
    let before = out.len();
    let done = push_each(bytes, out);
    if done.is_err() {
        out.truncate(before);
    }
    done
}

// Adds the bytes as hex digits in small letters; with no memory for them all, nothing.
pub fn write_hex(bytes: &[u8], out: &mut Vec<u8>) -> Result<(), AllocError>
    ensures text { out.new.items ≡ appended result (hex_text bytes.now) out.old.items }
    ensures reads_back { (bs : List ℕ) → all_bytes bs ≡ true → hex_of (hex_text bs) ≡ Some bs }
{
    push_hex(bytes, out)
}
