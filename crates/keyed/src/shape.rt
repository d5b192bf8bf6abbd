// Which keyed words may stand after `message` and `status`, and which must.
ghost use Rattle.std.specs.Prelude.{◌≡◌};
ghost use Rattle.words.specs.Cuts.{seen};
ghost use Rattle.keyed.specs.Shapes.{any_key, number_key, text_key, own_key, key_of, all_keys, once, at_most_once, all_once, all_at_most_once, required, optional, own, is_shape};

use crate::keys::{count_key, has_key};
use envelope::parts::Kind;

fn has_any_key(names: &[&[u8]], word: &[u8]) -> bool
    ensures { result ≡ any_key (seen names.now) word.now }
{
    names.iter().any(|name| has_key(*name, word))
}

fn is_number_key(word: &[u8]) -> bool
    ensures { result ≡ number_key word.now }
{
    has_any_key(&[b"todt", b"to", b"ar", b"vb"], word)
}

fn is_text_key(word: &[u8]) -> bool
    ensures { result ≡ text_key word.now }
{
    has_any_key(&[b"on", b"fr", b"ad", b"df", b"ct"], word)
}

fn is_own_key(kind: Kind, word: &[u8]) -> bool
    ensures { result ≡ own_key kind word.now }
{
    match kind {
        Kind::Message => has_key(b"body", word),
        Kind::Status => has_key(b"code", word) || has_key(b"text", word),
    }
}

fn is_key_of(kind: Kind, word: &[u8]) -> bool
    ensures { result ≡ key_of kind word.now }
{
    is_number_key(word) || is_text_key(word) || is_own_key(kind, word)
}

fn are_keys_of(kind: Kind, words: &[&[u8]]) -> bool
    ensures { result ≡ all_keys kind (seen words.now) }
{
    words.iter().all(|word| is_key_of(kind, *word))
}

fn is_once(name: &[u8], words: &[&[u8]]) -> bool
    ensures { result ≡ once name.now (seen words.now) }
{
    count_key(name, words) == 1
}

fn is_at_most_once(name: &[u8], words: &[&[u8]]) -> bool
    ensures { result ≡ at_most_once name.now (seen words.now) }
{
    count_key(name, words) <= 1
}

// The two rules stay apart: one function for both would take the test of a count, and neither has more than that.
fn are_once(names: &[&[u8]], words: &[&[u8]]) -> bool
    ensures { result ≡ all_once (seen names.now) (seen words.now) }
{
    names.iter().all(|name| is_once(*name, words))
}

fn are_at_most_once(names: &[&[u8]], words: &[&[u8]]) -> bool
    ensures { result ≡ all_at_most_once (seen names.now) (seen words.now) }
{
    names.iter().all(|name| is_at_most_once(*name, words))
}

fn has_required(words: &[&[u8]]) -> bool
    ensures { result ≡ required (seen words.now) }
{
    are_once(&[b"todt", b"on", b"fr", b"ad", b"df"], words)
}

fn has_optional(words: &[&[u8]]) -> bool
    ensures { result ≡ optional (seen words.now) }
{
    are_at_most_once(&[b"to", b"ar", b"vb", b"ct"], words)
}

fn has_own(kind: Kind, words: &[&[u8]]) -> bool
    ensures { result ≡ own kind (seen words.now) }
{
    match kind {
        Kind::Message => is_at_most_once(b"body", words),
        Kind::Status => is_once(b"code", words) && is_at_most_once(b"text", words),
    }
}

// Every key is one of the kind's, none stands twice, and none that must stand is missing.
pub(crate) fn is_shape(kind: Kind, words: &[&[u8]]) -> bool
    ensures { result ≡ is_shape kind (seen words.now) }
{
    are_keys_of(kind, words) && has_required(words) && has_optional(words) && has_own(kind, words)
}
