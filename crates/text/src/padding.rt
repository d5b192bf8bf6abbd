// A text in an array, and the part of an array that counts.
ghost use Rattle.std.specs.Prelude.{◌≡◌, take};
ghost use Rattle.text.specs.Padding.{padded};

// The first bytes of the text, zeros after them where there are fewer.
#[tactic(auto, using(crate::proofs::Padded::pad_all))]
pub fn pad<const N: usize>(text: &[u8]) -> [u8; N]
    ensures { result ≡ padded N text.now }
{
    let mut bytes = [0; N];
    let kept = N.min(text.len());
    bytes[..kept].copy_from_slice(&text[..kept]);
    bytes
}

// The first `len` items, or all where there are fewer.
pub fn front<T>(items: &[T], len: usize) -> &[T]
    ensures { result.now ≡ take len items.now }
{
    items.get(..len).unwrap_or(items)
}
