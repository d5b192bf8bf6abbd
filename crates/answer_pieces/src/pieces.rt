// Pieces of a line, added to it one after the other.
ghost use Rattle.std.specs.Prelude.{◌≡◌, ◌++◌, OnOk};
ghost use Rattle.answer_pieces.specs.Pieces.{appended};
ghost use Rattle.answer_pieces.specs.Texts.{plain_byte, plain_bytes, is_plain, text_pieces, keyed_number};

use arguments::value::after_mark;
use digits::hex::write_hex;
use digits::number::write_number;
use std::alloc::AllocError;

// Bytes as they stand.
pub fn put(out: &mut Vec<u8>, bytes: &[u8]) -> Result<(), AllocError>
    ensures { OnOk result (out.new.items ≡ out.old.items ++ bytes.now) }
{
    out.extend_from_slice(bytes)
}

// A byte that can stand in a word.
fn is_plain_byte(b: u8) -> bool
    ensures { result ≡ plain_byte b }
{
    33 <= b && b <= 126 && b != b'#'
}

fn are_plain_bytes(bytes: &[u8]) -> bool
    ensures { result ≡ plain_bytes bytes.now }
{
    bytes.iter().all(|b| is_plain_byte(*b))
}

fn is_plain(bytes: &[u8]) -> bool
    ensures { result ≡ is_plain bytes.now }
{
    !bytes.is_empty() && after_mark(bytes).is_none() && are_plain_bytes(bytes)
}

// A text as it stands, or in hex digits.
pub fn put_text(out: &mut Vec<u8>, bytes: &[u8]) -> Result<(), AllocError>
    ensures { OnOk result (out.new.items ≡ appended out.old.items (text_pieces bytes.now)) }
{
    if is_plain(bytes) {
        return put(out, bytes);
    }
    put(out, b"0x")?;
    write_hex(bytes, out)
}

// A key, and a number in decimal digits right after it.
pub fn put_keyed_number(out: &mut Vec<u8>, key: &[u8], n: u64) -> Result<(), AllocError>
    ensures { OnOk result (out.new.items ≡ appended out.old.items (keyed_number key.now n)) }
{
    put(out, key)?;
    write_number(n, out)
}
