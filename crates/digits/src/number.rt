// Decimal numbers, read and written.
ghost use Rattle.std.specs.Prelude.{◌≡◌, ℕ, ◌≤◌, length, Some, decimal, slice_index};
ghost use Rattle.digits.specs.Numbers.{digit_on, number_of};
ghost use Rattle.digits.specs.Appends.{appended};

use std::alloc::AllocError;

// The number with one digit more, where `b` is a digit and the number does not pass `most`.
fn digit_on(most: u64, n: u64, b: u8) -> Option<u64>
    ensures { result ≡ digit_on most n b }
{
    if !b.is_ascii_digit() {
        return None;
    }
    let digit = u64::from(b - b'0');
    if digit > most || n > (most - digit) / 10 {
        return None;
    }
    Some(10 * n + digit)
}

// The number that the digits write, where there are only digits, one or more, and the number is at most `most`. (`parse`
// takes a sign too, and only text.)
pub fn number(text: &[u8], most: u64) -> Option<u64>
    ensures { result ≡ number_of most text.now }
{
    if text.is_empty() {
        return None;
    }
    let mut n = 0;
    for b in text {
        n = digit_on(most, n, *b)?;
    }
    Some(n)
}

// Adds the digits of the number; with no memory for them, nothing. (`write!` would be no
// plainer: it tells want of memory as any `io::Error`.)
fn push_digits(n: u64, out: &mut Vec<u8>) -> Result<(), AllocError>
    ensures { out.new.items ≡ appended result (decimal n) out.old.items }
{
    let heap = *out.allocator();
    let text = n.to_string(heap)?;
    out.extend_from_slice(text.as_bytes())
}

// Adds the digits of the number, no zero in front; with no memory for them, nothing.
pub fn write_number(n: u64, out: &mut Vec<u8>) -> Result<(), AllocError>
    ensures text { out.new.items ≡ appended result (decimal n) out.old.items }
    ensures reads_back { (most : ℕ) → n ≤ most → number_of most (decimal n) ≡ Some n }
    ensures unpadded { slice_index (decimal n) 0 ≡ 48 → length (decimal n) ≡ 1 }
{
    push_digits(n, out)
}
