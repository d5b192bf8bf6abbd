// The bounds of the fields that are numbers.
ghost use Rattle.std.specs.Prelude.{◌≡◌};
ghost use Rattle.envelope.specs.Limits.{timeout_ok, code_ok};
ghost use Rattle.envelope.specs.Views.{kind_number};

use crate::parts::Kind;

// 1 to 600 seconds, and no more than the time at which they are over.
pub fn is_timeout(to: u16, todt: u32) -> bool
    ensures { result ≡ timeout_ok to todt }
{
    1 <= to && to <= 600 && to as u32 <= todt
}

// A message has code 0; a status has one from 100 to 199 or from 400 to 499.
pub fn is_code(kind: Kind, code: u16) -> bool
    ensures { result ≡ code_ok (kind_number kind) code }
{
    match kind {
        Kind::Message => code == 0,
        Kind::Status => (100 <= code && code <= 199) || (400 <= code && code <= 499),
    }
}
