// Words of the form `key=value`.
ghost use Rattle.std.specs.Prelude.{◌≡◌};
ghost use Rattle.std.specs.Option.{option_map};
ghost use Rattle.words.specs.Cuts.{seen};
ghost use Rattle.keyed.specs.Keys.{value_under, has_key, count, find};

use words::cut::{is_word, key_value};

// The value of a word with this key.
fn value_under<'a>(name: &[u8], word: &'a [u8]) -> Option<&'a [u8]>
    ensures { option_map (λ x. x.now) result ≡ value_under name.now word.now }
{
    let (key, value) = key_value(word)?;
    is_word(key, name).then_some(value)
}

pub(crate) fn has_key(name: &[u8], word: &[u8]) -> bool
    ensures { result ≡ has_key name.now word.now }
{
    value_under(name, word).is_some()
}

// How many words have this key.
pub(crate) fn count_key(name: &[u8], words: &[&[u8]]) -> usize
    ensures { result ≡ count name.now (seen words.now) }
{
    words.iter().filter(|word| has_key(name, **word)).count()
}

// The value of the first word with this key. (A `for`: the proof by `find_map` did not close. A map would be no plainer: it would
// have to keep which word came first.)
pub(crate) fn find_value<'a>(name: &[u8], words: &[&'a [u8]]) -> Option<&'a [u8]>
    ensures { option_map (λ x. x.now) result ≡ find name.now (seen words.now) }
{
    for word in words {
        if let Some(value) = value_under(name, word) {
            return Some(value);
        }
    }
    None
}
