// Making, filling and reading an address.
ghost use Rattle.std.specs.Prelude.{◌≡◌, ◌≤◌, true, [], ◌∷◌, length};
ghost use Rattle.text.specs.Padding.{padded};
ghost use Rattle.text.specs.Addresses.{address_text, held, holding, fill_after};
ghost use Rattle.text.specs.Faults.{checked_address};
ghost use Rattle.text.specs.Forms.{is_address};

use crate::address::Address;
use crate::fault::{TextFault, check_address};
use crate::padding::pad;

// The address that a checked text spells.
fn spelled(text: &[u8]) -> Address
    requires { is_address text.now ≡ true }
    ensures { held result ≡ holding text.now }
{
    Address {
        bytes: pad(text),
        len: text.len(),
    }
}

impl Address {
    // The address `A`: a lawful place for a call to fill.
    pub fn shortest() -> Address
        ensures { held result ≡ holding (65 ∷ []) }
    {
        spelled(b"A")
    }

    // Makes this the address that `text` spells; left as it was where the text is none.
    pub fn fill(&mut self, text: &[u8]) -> Result<(), TextFault>
        ensures answer { result ≡ checked_address text.now }
        ensures after { held self.new ≡ fill_after text.now (held self.old) }
    {
        check_address(text)?;
        *self = spelled(text);
        Ok(())
    }

    // The bytes as they came.
    pub fn text(&self) -> &[u8]
        ensures { result.now ≡ address_text self.now }
    {
        &self.bytes[0..self.len]
    }
}
