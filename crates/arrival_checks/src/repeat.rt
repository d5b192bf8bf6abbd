// What a row keeps of an envelope, and what is answered where a row is found for one.
ghost use Rattle.std.specs.Prelude.{◌≡◌};
ghost use Rattle.envelope.specs.Views.{view};
ghost use Rattle.arrival_checks.specs.Repeats.{first_code, kept_of, is_repeat, again_code, answered_again};

use crate::answer::Arrived;
use crate::fault::ArrivalFault;
use envelope::parts::Parts;
use envelope_rows::kept::Kept;
use routing::row::Way;

fn first_code(on: Way) -> u16
    ensures { result ≡ first_code on }
{
    match on {
        Way::Local => 100,
        Way::Neighbour(_) => 200,
    }
}

pub fn kept_of(parts: Parts<'_>, on: Way) -> Kept
    ensures { result ≡ kept_of (view parts.entry) on }
{
    Kept {
        todt: parts.todt,
        to: parts.to,
        first: first_code(on),
    }
}

// The same envelope again.
fn is_repeat(kept: Kept, parts: Parts<'_>) -> bool
    ensures { result ≡ is_repeat kept (view parts.entry) }
{
    kept.todt == parts.todt && kept.to == parts.to
}

// The first code plus 1; a live row has 100 or 200.
fn again_code(first: u16) -> u16
    ensures { result ≡ again_code first }
{
    if first == 100 { 101 } else { 201 }
}

// Where there is a row with the key of an envelope.
pub fn answer_again(kept: Kept, parts: Parts<'_>) -> Result<Arrived, ArrivalFault>
    ensures { result ≡ answered_again kept (view parts.entry) }
{
    if is_repeat(kept, parts) {
        Ok(Arrived::Repeated {
            code: again_code(kept.first),
        })
    } else {
        Err(ArrivalFault::Different)
    }
}
