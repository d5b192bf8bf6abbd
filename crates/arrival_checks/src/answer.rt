// What an arrival is answered.
ghost use Rattle.std.specs.Prelude.{◌≡◌};
ghost use Rattle.arrival_checks.specs.Answers.{arrival_says};

#[derive(Clone, Copy)]
pub enum Arrived {
    // in the inbox of the local office, in this place
    Entered { place: usize },
    // waiting for a neighbour, in this place
    Waiting { place: usize },
    // it came before; the code is that of the first answer plus 1, a number since it is told as one and comes from a row
    Repeated { code: u16 },
    // a receipt that nobody asked for: it is not kept
    Unwanted,
}

impl Arrived {
    // The number that stands for the answer.
    pub fn number(self) -> u16
        ensures { result ≡ (arrival_says self).number }
    {
        match self {
            Arrived::Entered { place: _ } => 100,
            Arrived::Waiting { place: _ } => 200,
            Arrived::Repeated { code } => code,
            Arrived::Unwanted => 202,
        }
    }
}
