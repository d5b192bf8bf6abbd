// Why a line is no call.
ghost use Rattle.std.specs.Prelude.{◌≡◌};
ghost use Rattle.arguments.specs.Faults.{fault_text};
ghost use Rattle.arguments.specs.declared.fault.CallFault.TheVariants.{Line, Memory};

use std::alloc::AllocError;

#[derive(Clone, Copy, PartialEq, Eq, Debug)]
pub enum LineFault {
    TooLong,
    UnknownVerb,
    WrongWords,
    BadNumber,
    BadHex,
    BadWord,
    TableFull,
}

impl LineFault {
    // The words that tell it, as an answer takes them. (A `Display` would be written by `write!`, whose error says less than
    // that there was no memory.)
    pub fn text(self) -> &'static [u8]
        ensures { result.now ≡ fault_text self }
    {
        match self {
            LineFault::TooLong => b"line too long",
            LineFault::UnknownVerb => b"unknown verb",
            LineFault::WrongWords => b"wrong words",
            LineFault::BadNumber => b"bad number",
            LineFault::BadHex => b"bad hex",
            LineFault::BadWord => b"bad word",
            LineFault::TableFull => b"table full",
        }
    }
}

// Why a call could not be read: the line is none, or there was no memory for it.
#[derive(Clone, Copy, PartialEq, Eq, Debug)]
pub enum CallFault {
    Line(LineFault),
    Memory,
}

impl From<LineFault> for CallFault {
    ghost from_gives = { λ f r. r ≡ Line f };

    fn from(f: LineFault) -> CallFault {
        CallFault::Line(f)
    }
}

impl From<AllocError> for CallFault {
    ghost from_gives = { λ _ r. r ≡ Memory };

    fn from(_e: AllocError) -> CallFault {
        CallFault::Memory
    }
}
