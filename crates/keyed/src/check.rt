// Whether the values of keyed words can be read.
ghost use Rattle.std.specs.Prelude.{◌≡◌};
ghost use Rattle.words.specs.Cuts.{seen};
ghost use Rattle.arguments.specs.Faults.{Gives};
ghost use Rattle.keyed.specs.Fields.{width_of, value_of, checked_word, checked_words};

use crate::keys::has_key;
use arguments::fault::CallFault;
use arguments::value::{read_number, read_text};
use std::alloc::Global;
use words::cut::key_value;

// The greatest number that the word's field takes, where its value is a number.
fn width_of(word: &[u8]) -> Option<u64>
    ensures { result ≡ width_of word.now }
{
    if has_key(b"todt", word) {
        Some(u32::MAX.into())
    } else if has_key(b"to", word) || has_key(b"code", word) {
        Some(u16::MAX.into())
    } else if has_key(b"ar", word) || has_key(b"vb", word) {
        Some(u8::MAX.into())
    } else {
        None
    }
}

// What stands after the first `=`.
fn value_of(word: &[u8]) -> &[u8]
    ensures { result.now ≡ value_of word.now }
{
    key_value(word).map_or(&[], |(_, value)| value)
}

fn check_word(heap: Global, word: &[u8]) -> Result<(), CallFault>
    ensures { Gives (λ x. x) result (checked_word word.now) }
{
    let value = value_of(word);
    match width_of(word) {
        Some(most) => {
            read_number(value, most)?;
        }
        None => {
            read_text(heap, value)?;
        }
    }
    Ok(())
}

// From left to right, the first word that is wrong.
pub(crate) fn check_words(heap: Global, words: &[&[u8]]) -> Result<(), CallFault>
    ensures { Gives (λ x. x) result (checked_words (seen words.now)) }
{
    for word in words {
        check_word(heap, word)?;
    }
    Ok(())
}
