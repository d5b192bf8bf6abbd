// Sixty-four bytes as eight words of 64 bits, the low byte first.
ghost use Rattle.std.specs.Prelude.{◌≡◌, ◌+◌, ◌≤◌};
ghost use Rattle.connection.specs.Words.{word_at, words_of, bytes_of_word, bytes_of};

use std::array;
use text::padding::pad;

fn word_at(bytes: &[u8; 64], at: usize) -> u64
    requires { at + 8 ≤ 64 }
    ensures { result ≡ word_at bytes.now at }
{
    u64::from_le_bytes(array::from_fn(|i| bytes[at + i]))
}

// The words of the bytes, from which the bytes come back.
pub(crate) fn pack(bytes: &[u8; 64]) -> [u64; 8]
    ensures words { result ≡ words_of bytes.now }
    ensures back { bytes_of result ≡ bytes.now }
{
    array::from_fn(|i| word_at(bytes, 8 * i))
}

fn bytes_of_word(word: u64) -> [u8; 8]
    ensures { result ≡ bytes_of_word word }
{
    word.to_le_bytes()
}

// The bytes of the words, which fill the array.
pub(crate) fn spread(words: &[u64; 8]) -> [u8; 64]
    ensures { result ≡ bytes_of words.now }
{
    pad(words.map(bytes_of_word).as_flattened())
}
