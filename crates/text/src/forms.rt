// The forms of the texts in an envelope, each as a test of its bytes.
ghost use Rattle.std.specs.Prelude.{◌≡◌};
ghost use Rattle.text.specs.Forms.{all, bytes_from, name_byte, is_address, has_scheme, is_dataflow, is_operation_number, is_contacts};
ghost use Rattle.text.specs.Names.{names, all_names, begun_after, ExactlyNames};
ghost use Rattle.std.specs.Char.{is_ascii_alphanumeric};

use crate::case::begins_with;

// A letter, a digit, `-` or `_`.
fn is_name_byte(b: u8) -> bool
    ensures { result ≡ name_byte b }
{
    b.is_ascii_alphanumeric() || b == b'-' || b == b'_'
}

// Whether the name at hand has a byte after this one; none where this one may not stand there.
fn begun_after(begun: bool, b: u8) -> Option<bool>
    ensures { result ≡ begun_after begun b }
{
    if is_name_byte(b) {
        Some(true)
    } else if b == b':' && begun {
        Some(false)
    } else {
        None
    }
}

// Names joined by single colons: in one pass, since each row of a table is looked at for each way.
fn has_names(s: &[u8]) -> bool
    ensures { result ≡ all_names (names s.now) }
{
    s.iter()
        .try_fold(false, |begun, b| begun_after(begun, *b))
        .unwrap_or(false)
}

// 1 to 64 bytes: names joined by single colons.
pub fn is_address(s: &[u8]) -> bool
    ensures value { result ≡ is_address s.now }
    ensures names { ExactlyNames s.now }
{
    1 <= s.len() && s.len() <= 64 && has_names(s)
}

// Each byte is from `low` to `high`.
fn is_within(s: &[u8], low: u8, high: u8) -> bool
    ensures { result ≡ bytes_from low high s.now }
{
    s.iter().all(|b| low <= *b && *b <= high)
}

fn is_alphanumeric(s: &[u8]) -> bool
    ensures { result ≡ all is_ascii_alphanumeric s.now }
{
    s.iter().all(|b| b.is_ascii_alphanumeric())
}

fn has_scheme(s: &[u8]) -> bool
    ensures { result ≡ has_scheme s.now }
{
    begins_with(s, b"urn:") || begins_with(s, b"http://") || begins_with(s, b"https://")
}

// 5 to 256 bytes, each 33 to 126, beginning with one of three schemes.
pub fn is_dataflow(s: &[u8]) -> bool
    ensures { result ≡ is_dataflow s.now }
{
    5 <= s.len() && s.len() <= 256 && is_within(s, 33, 126) && has_scheme(s)
}

// 20 letters and digits.
pub fn is_operation_number(s: &[u8]) -> bool
    ensures { result ≡ is_operation_number s.now }
{
    s.len() == 20 && is_alphanumeric(s)
}

// 0 to 128 bytes, each 32 to 126.
pub fn is_contacts(s: &[u8]) -> bool
    ensures { result ≡ is_contacts s.now }
{
    s.len() <= 128 && is_within(s, 32, 126)
}
