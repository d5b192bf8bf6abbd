// Why a call of delivery is refused.
ghost use Rattle.std.specs.Prelude.{◌≡◌};
ghost use Rattle.delivery.specs.Refusals.{hand_out_refusal, read_refusal, answer_refusal};
ghost use Rattle.delivery.specs.declared.fault.ReadFault.TheVariants.{Spool};

use spool::fault::SpoolFault;

#[derive(Clone, Copy)]
pub enum HandOutFault {
    // Something is due, but every try number has been given.
    TriesUsed,
}

#[derive(Clone, Copy)]
pub enum ReadFault {
    // The place is not out under that try number.
    NotOut,
    Spool(SpoolFault),
}

#[derive(Clone, Copy)]
pub enum AnswerFault {
    // The place is not out under that try number.
    NotOut,
}

impl From<SpoolFault> for ReadFault {
    ghost from_gives = { λ f r. r ≡ Spool f };

    fn from(fault: SpoolFault) -> ReadFault {
        ReadFault::Spool(fault)
    }
}

impl HandOutFault {
    // The number that stands for the refusal.
    pub fn number(self) -> u16
        ensures { result ≡ (hand_out_refusal self).number }
    {
        match self {
            HandOutFault::TriesUsed => 504,
        }
    }
}

impl ReadFault {
    // The number that stands for the refusal.
    pub fn number(self) -> u16
        ensures { result ≡ (read_refusal self).number }
    {
        match self {
            ReadFault::NotOut => 501,
            ReadFault::Spool(fault) => fault.number(),
        }
    }
}

impl AnswerFault {
    // The number that stands for the refusal.
    pub fn number(self) -> u16
        ensures { result ≡ (answer_refusal self).number }
    {
        match self {
            AnswerFault::NotOut => 501,
        }
    }
}
