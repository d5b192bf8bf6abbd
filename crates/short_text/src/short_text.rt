// A text of up to 64 bytes in an array, with its length.
ghost use Rattle.std.specs.Prelude.{◌≡◌, IfSome};
ghost use Rattle.short_text.specs.ShortTexts.{kept_text, text_of, empty_text, holds_address, holds_operation_number, same_short_text, short_text_equiv, Holds};
ghost use Rattle.std.specs.Cmp.{partial_equiv_from_equiv};

use text::case::is_same_text;
use text::forms::{is_address, is_operation_number};
use text::padding::{front, pad};

// The bytes after the first `len` mean nothing; a length of more than 64 holds no lawful text.
// Bytes with a length beside them, since it lies in rows that are plain memory: nothing here allocates, and whoever fills
// a row may write any length.
#[derive(Clone, Copy)]
pub struct ShortText {
    pub bytes: [u8; 64],
    pub len: u8,
}

fn keep(text: &[u8]) -> Option<ShortText>
    ensures { result ≡ kept_text text.now }
{
    if text.len() <= 64 {
        Some(ShortText {
            bytes: pad(text),
            len: text.len() as u8,
        })
    } else {
        None
    }
}

impl ShortText {
    // The text, zeros after it; none where it is longer than 64 bytes.
    pub fn new(text: &[u8]) -> Option<ShortText>
        ensures value { result ≡ kept_text text.now }
        ensures holds { IfSome result (Holds text.now) }
    {
        keep(text)
    }

    // The text of no bytes.
    pub fn empty() -> ShortText
        ensures { result ≡ empty_text }
    {
        ShortText {
            bytes: [0; 64],
            len: 0,
        }
    }

    // The bytes that count.
    pub fn text(&self) -> &[u8]
        ensures { result.now ≡ text_of self.now }
    {
        front(&self.bytes, self.len as usize)
    }

    pub fn is_address(&self) -> bool
        ensures { result ≡ holds_address self.now }
    {
        self.len <= 64 && is_address(self.text())
    }

    pub fn is_operation_number(&self) -> bool
        ensures { result ≡ holds_operation_number self.now }
    {
        self.len <= 64 && is_operation_number(self.text())
    }
}

// Two texts are the same where they are but for the case of their letters.
impl PartialEq for ShortText {
    ghost eq = { same_short_text };

    ghost laws = { partial_equiv_from_equiv short_text_equiv };

    fn eq(&self, other: &ShortText) -> bool {
        is_same_text(self.text(), other.text())
    }
}

impl Eq for ShortText {
    ghost laws = { short_text_equiv };
}
