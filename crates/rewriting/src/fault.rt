// Why a record is not written again.
ghost use Rattle.std.specs.Prelude.{◌≡◌};
ghost use Rattle.rewriting.specs.declared.fault.RewriteFault.TheVariants.{Record, Write};

use envelope::fault::RecordFault;
use writing::fault::WriteFault;

// The record does not read, or what was read is not written.
#[derive(Clone, Copy, PartialEq, Eq, Debug)]
pub enum RewriteFault {
    Record(RecordFault),
    Write(WriteFault),
}

impl From<RecordFault> for RewriteFault {
    ghost from_gives = { λ f r. r ≡ Record f };

    fn from(fault: RecordFault) -> RewriteFault {
        RewriteFault::Record(fault)
    }
}

impl From<WriteFault> for RewriteFault {
    ghost from_gives = { λ f r. r ≡ Write f };

    fn from(fault: WriteFault) -> RewriteFault {
        RewriteFault::Write(fault)
    }
}
