// Why a record is refused.
ghost use Rattle.std.specs.Prelude.{◌≡◌};
ghost use Rattle.envelope.specs.Refusals.{record_refusal};
ghost use Rattle.envelope.specs.declared.fault.RecordFault.TheVariants.{Field};

// A broken field: its number, and the offset where it starts. The number stays one: it is how refusals name a field, and an
// enum would be turned back into it at every use.
#[derive(Clone, Copy, PartialEq, Eq, Debug)]
pub struct FieldFault {
    pub field: u8,
    pub offset: usize,
}

#[derive(Clone, Copy, PartialEq, Eq, Debug)]
pub enum RecordFault {
    Length,
    Kind,
    Field(FieldFault),
}

impl From<FieldFault> for RecordFault {
    ghost from_gives = { λ f r. r ≡ Field f };

    fn from(fault: FieldFault) -> RecordFault {
        RecordFault::Field(fault)
    }
}

impl RecordFault {
    // The number that stands for the refusal.
    pub fn number(self) -> u16
        ensures { result ≡ (record_refusal self).number }
    {
        match self {
            RecordFault::Length => 401,
            RecordFault::Kind => 402,
            RecordFault::Field(_) => 403,
        }
    }
}
