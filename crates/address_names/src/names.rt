// The names of an address, as parts of it.
ghost use Rattle.std.specs.Prelude.{◌≡◌, ◌+◌, ◌≤◌, length};
ghost use Rattle.text.specs.Names.{names, first_names};
ghost use Rattle.std.specs.List.{slice_get};
ghost use Rattle.address_names.specs.Agree.{is_end};

use text::case::begins_with;

// How many names there are: one more than there are colons.
#[tactic(auto, using(crate::proofs::Pairs::count_of_colons))]
pub fn count_names(s: &[u8]) -> usize
    ensures value { result ≡ length (names s.now) }
    ensures few { result ≤ length s.now + 1 }
{
    s.iter().filter(|b| **b == b':').count() + 1
}

// Whether a name ends before the byte that stands at `at`: nothing does, or a colon.
fn ends_at(s: &[u8], at: usize) -> bool
    ensures { result ≡ is_end (slice_get s.now at) }
{
    match s.get(at) {
        Some(b) => *b == b':',
        None => true,
    }
}

// Whether the names of `lead` are the first names of `target`: it begins so, and there a name ends. The letters of a name
// have no colon in either case, so that the names need not be taken apart.
#[tactic(auto, using(crate::proofs::Fronts::first_by_front))]
pub fn are_first_names(lead: &[u8], target: &[u8]) -> bool
    ensures { result ≡ first_names (names lead.now) (names target.now) }
{
    begins_with(target, lead) && ends_at(target, lead.len())
}
