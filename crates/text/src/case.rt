// Comparing texts without the case of their letters.
ghost use Rattle.std.specs.Prelude.{◌≡◌};
ghost use Rattle.text.specs.Forms.{same_text, begins_with};

pub fn is_same_text(a: &[u8], b: &[u8]) -> bool
    ensures { result ≡ same_text a.now b.now }
{
    a.eq_ignore_ascii_case(b)
}

pub fn begins_with(s: &[u8], front: &[u8]) -> bool
    ensures { result ≡ begins_with front.now s.now }
{
    s.get(..front.len())
        .is_some_and(|start| is_same_text(start, front))
}
