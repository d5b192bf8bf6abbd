// Why a ledger refuses.
ghost use Rattle.std.specs.Prelude.{◌≡◌};
ghost use Rattle.ledger.specs.Refusals.{ledger_refusal};

#[derive(Clone, Copy, PartialEq, Eq, Debug)]
pub enum LedgerFault {
    // Each row is live, and none has the key.
    NoRow,
}

impl LedgerFault {
    // The number that stands for the refusal.
    pub fn number(self) -> u16
        ensures { result ≡ (ledger_refusal self).number }
    {
        match self {
            LedgerFault::NoRow => 301,
        }
    }
}
