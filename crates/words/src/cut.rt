// A line cut into its words, and a word into key and value.
ghost use Rattle.std.specs.Prelude.{◌≡◌, ◌≤◌, ◌==◌, length, position, IfOk};
ghost use Rattle.std.specs.List.{prefix_len};
ghost use Rattle.std.specs.Str.{bytes_eq};
ghost use Rattle.words.specs.Cuts.{is_gap, in_word, first_word, after_word, ends_words, seen, words_of, len_before, key_value_of, seen_sides};

use std::alloc::{AllocError, Global};

fn is_gap(b: u8) -> bool
    ensures { result ≡ is_gap b }
{
    b == b' ' || b == b'\t'
}

// How many gaps stand in front. This and the two below are a chain each: one function for all would take the test, which is
// all that they have.
fn gap_len(text: &[u8]) -> usize
    ensures value { result ≡ prefix_len is_gap text.now }
    ensures within { result ≤ length text.now }
{
    text.iter().take_while(|b| is_gap(**b)).count()
}

// How many bytes stand before the first gap.
fn word_len(text: &[u8]) -> usize
    ensures value { result ≡ prefix_len in_word text.now }
    ensures within { result ≤ length text.now }
{
    text.iter().take_while(|b| !is_gap(**b)).count()
}

#[derive(Clone, Copy)]
struct Cut<'a> {
    word: &'a [u8],
    rest: &'a [u8],
}

// The first word, and what stands after it.
fn cut_word(line: &[u8]) -> Cut<'_>
    ensures word { result.word.now ≡ first_word line.now }
    ensures rest { result.rest.now ≡ after_word line.now }
{
    let (_, from) = line.split_at(gap_len(line));
    let (word, rest) = from.split_at(word_len(from));
    Cut { word, rest }
}

// Whether the words end here: there is no further one, or it begins a comment.
fn ends_words(word: &[u8]) -> bool
    ensures { result ≡ ends_words word.now }
{
    word.is_empty() || word[0] == b'#'
}

// The words of the line, up to the first that begins with `#`.
pub fn words<'a>(heap: Global, line: &'a [u8]) -> Result<Vec<&'a [u8]>, AllocError>
    ensures { IfOk result (λ v. seen v.items ≡ words_of line.now) }
{
    let mut all = Vec::new(heap);
    let mut rest = line;
    loop {
        let cut = cut_word(rest);
        if ends_words(cut.word) {
            return Ok(all);
        }
        all.push(cut.word)?;
        rest = cut.rest;
    }
}

// How many bytes stand before the first `stop`, or all.
pub fn len_before(text: &[u8], stop: u8) -> usize
    ensures value { result ≡ len_before stop text.now }
    ensures within { result ≤ length text.now }
{
    text.iter().take_while(|b| **b != stop).count()
}

// Where the first `=` stands.
fn sign_at(word: &[u8]) -> Option<usize>
    ensures { result ≡ position (λ b. b == 61) word.now }
{
    word.iter().position(|b| *b == b'=')
}

// What stands before and after the first `=`.
pub fn key_value(word: &[u8]) -> Option<(&[u8], &[u8])>
    ensures { seen_sides result ≡ key_value_of word.now }
{
    let at = sign_at(word)?;
    Some((&word[..at], &word[at + 1..]))
}

// Whether these are the bytes of a known word.
pub fn is_word(word: &[u8], known: &[u8]) -> bool
    ensures { result ≡ bytes_eq word.now known.now }
{
    word == known
}
