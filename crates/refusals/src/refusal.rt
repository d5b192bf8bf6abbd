// A refusal as an answer tells it, and the faults of which it is made.
ghost use Rattle.std.specs.Prelude.{◌≡◌};
ghost use Rattle.envelope.specs.Refusals.{record_refusal};
ghost use Rattle.writing.specs.Refusals.{write_refusal};
ghost use Rattle.text.specs.Faults.{text_refusal};
ghost use Rattle.refusals.specs.Refusals.{said_refusal};

use envelope::fault::{FieldFault, RecordFault};
use text::fault::TextFault;
use writing::fault::WriteFault;

// A refusal by its number; where a field is broken, which and where. An enum of the faults would ask more of whoever tells one:
// an answer tells any number.
#[derive(Clone, Copy, PartialEq, Eq, Debug)]
pub struct Refusal {
    pub number: u16,
    pub at: Option<FieldFault>,
}

impl From<RecordFault> for Refusal {
    ghost from_gives = { λ fault r. said_refusal r ≡ record_refusal fault };

    fn from(fault: RecordFault) -> Refusal {
        let at = match fault {
            RecordFault::Field(field) => Some(field),
            RecordFault::Length | RecordFault::Kind => None,
        };
        Refusal {
            number: fault.number(),
            at,
        }
    }
}

impl From<WriteFault> for Refusal {
    ghost from_gives = { λ fault r. said_refusal r ≡ write_refusal fault };

    fn from(fault: WriteFault) -> Refusal {
        let at = match fault {
            WriteFault::Field(field) => Some(field),
            WriteFault::Length | WriteFault::Buffer => None,
        };
        Refusal {
            number: fault.number(),
            at,
        }
    }
}

impl From<TextFault> for Refusal {
    ghost from_gives = { λ fault r. said_refusal r ≡ text_refusal fault };

    fn from(fault: TextFault) -> Refusal {
        let number = fault.number();
        Refusal { number, at: None }
    }
}
