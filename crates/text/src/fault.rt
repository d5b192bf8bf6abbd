// Why a text is refused, and the checks that refuse it.
ghost use Rattle.std.specs.Prelude.{◌≡◌};
ghost use Rattle.text.specs.Faults.{text_refusal, checked_address, checked_dataflow};

use crate::forms::{is_address, is_dataflow};

#[derive(Clone, Copy, PartialEq, Eq, Debug)]
pub enum TextFault {
    NoAddress,
    NoDataflow,
}

impl TextFault {
    // The number that stands for the refusal.
    pub fn number(self) -> u16
        ensures { result ≡ (text_refusal self).number }
    {
        match self {
            TextFault::NoAddress => 503,
            TextFault::NoDataflow => 503,
        }
    }
}

// One function for both checks would take the test and the fault as parameters, which is more than each body has.
pub fn check_address(text: &[u8]) -> Result<(), TextFault>
    ensures { result ≡ checked_address text.now }
{
    if is_address(text) {
        Ok(())
    } else {
        Err(TextFault::NoAddress)
    }
}

pub fn check_dataflow(text: &[u8]) -> Result<(), TextFault>
    ensures { result ≡ checked_dataflow text.now }
{
    if is_dataflow(text) {
        Ok(())
    } else {
        Err(TextFault::NoDataflow)
    }
}
