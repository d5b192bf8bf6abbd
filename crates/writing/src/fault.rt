// Why fields are not written.
ghost use Rattle.std.specs.Prelude.{◌≡◌};
ghost use Rattle.writing.specs.Refusals.{write_refusal};
ghost use Rattle.writing.specs.declared.fault.WriteFault.TheVariants.{Field};

use envelope::fault::FieldFault;

#[derive(Clone, Copy, PartialEq, Eq, Debug)]
pub enum WriteFault {
    Field(FieldFault),
    Length,
    Buffer,
}

impl From<FieldFault> for WriteFault {
    ghost from_gives = { λ f r. r ≡ Field f };

    fn from(fault: FieldFault) -> WriteFault {
        WriteFault::Field(fault)
    }
}

impl WriteFault {
    // The number that stands for the refusal.
    pub fn number(self) -> u16
        ensures { result ≡ (write_refusal self).number }
    {
        match self {
            WriteFault::Field(_) => 403,
            WriteFault::Length => 401,
            WriteFault::Buffer => 502,
        }
    }
}
