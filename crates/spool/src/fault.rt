// Why a spool refuses a call.
ghost use Rattle.std.specs.Prelude.{◌≡◌};
ghost use Rattle.spool.specs.Faults.{spool_refusal};

#[derive(Clone, Copy, PartialEq, Eq, Debug)]
pub enum SpoolFault {
    // There is no such place.
    NoPlace,
    // No bytes, or more than a place takes.
    Unstorable,
    // The buffer is shorter than what the place holds.
    ShortBuffer,
}

impl SpoolFault {
    // The number that stands for the refusal.
    pub fn number(self) -> u16
        ensures { result ≡ (spool_refusal self).number }
    {
        match self {
            SpoolFault::NoPlace => 505,
            SpoolFault::Unstorable => 505,
            SpoolFault::ShortBuffer => 502,
        }
    }
}
