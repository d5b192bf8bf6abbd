// Why an arrival is refused.
ghost use Rattle.std.specs.Prelude.{◌≡◌};
ghost use Rattle.arrival_checks.specs.Answers.{arrival_refusal};
ghost use Rattle.arrival_checks.specs.declared.fault.ArrivalFault.TheVariants.{Record, Ledger};

use envelope::fault::RecordFault;
use ledger::fault::LedgerFault;

#[derive(Clone, Copy)]
pub enum ArrivalFault {
    // The record is no message and no status.
    Record(RecordFault),
    // An Endpoint sends only what comes from its own address.
    Originator,
    // It expired, or was kept long enough.
    NotLive,
    // Another envelope with the same key was taken in before.
    Different,
    // No row of the route table leads to its recipient.
    NoWayOn,
    // None leads back to the sender of a message.
    NoWayBack,
    // It would go to the neighbour who brought it.
    SentBack,
    // Its ledger has no row to add to.
    Ledger(LedgerFault),
    // No place is free.
    NoPlace,
}

impl From<RecordFault> for ArrivalFault {
    ghost from_gives = { λ f r. r ≡ Record f };

    fn from(refused: RecordFault) -> ArrivalFault {
        ArrivalFault::Record(refused)
    }
}

impl From<LedgerFault> for ArrivalFault {
    ghost from_gives = { λ f r. r ≡ Ledger f };

    fn from(refused: LedgerFault) -> ArrivalFault {
        ArrivalFault::Ledger(refused)
    }
}

impl ArrivalFault {
    // The number that stands for the refusal.
    pub fn number(self) -> u16
        ensures { result ≡ (arrival_refusal self).number }
    {
        match self {
            ArrivalFault::Record(fault) => fault.number(),
            ArrivalFault::Originator => 404,
            ArrivalFault::NotLive => 405,
            ArrivalFault::Different => 411,
            ArrivalFault::NoWayOn => 412,
            ArrivalFault::NoWayBack => 413,
            ArrivalFault::SentBack => 414,
            ArrivalFault::Ledger(fault) => fault.number(),
            ArrivalFault::NoPlace => 302,
        }
    }
}
