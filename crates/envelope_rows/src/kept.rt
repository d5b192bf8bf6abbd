// What a row keeps of the envelope that it was made for.
ghost use Rattle.std.specs.Prelude.{◌≡◌};
ghost use Rattle.envelope_rows.specs.Kepts.{kept_ok, empty_kept};

use envelope::limits::is_timeout;

// The time at which the timeout is over, the timeout, and the code that was answered first: plain numbers, since whoever
// fills a row may write anything there, and `is_lawful` judges them. A narrower type would ask more of them.
#[derive(Clone, Copy, PartialEq, Eq, Debug)]
pub struct Kept {
    pub todt: u32,
    pub to: u16,
    pub first: u16,
}

impl Kept {
    pub fn empty() -> Kept
        ensures { result ≡ empty_kept }
    {
        Kept {
            todt: 0,
            to: 0,
            first: 0,
        }
    }

    // A lawful timeout, and 100 or 200.
    pub fn is_lawful(&self) -> bool
        ensures { result ≡ kept_ok self.now }
    {
        is_timeout(self.to, self.todt) && (self.first == 100 || self.first == 200)
    }
}
