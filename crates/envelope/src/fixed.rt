// The fields at fixed offsets, 4 to 8: those of a record that is read, and those that are to be written as one.
ghost use Rattle.std.specs.Prelude.{◌≡◌};
ghost use Rattle.envelope.specs.Views.{kind_number};
ghost use Rattle.envelope.specs.Layout.{rows_of_fixed};
ghost use Rattle.envelope.specs.Decoding.{checked, told_check};

use crate::fault::FieldFault;
use crate::limits::{is_code, is_timeout};
use crate::parts::Kind;
use text::forms::is_operation_number;

// A message has code 0.
#[derive(Clone, Copy)]
pub struct Fixed<'a> {
    pub kind: Kind,
    pub todt: u32,
    pub to: u16,
    pub ar: u8,
    pub vb: u8,
    pub code: u16,
    pub on: &'a [u8],
}

impl Fixed<'_> {
    // The first of them that is not in form.
    pub fn check(self) -> Result<(), FieldFault>
        ensures { told_check result ≡ checked (rows_of_fixed (kind_number self.entry.kind) self.entry.todt self.entry.to self.entry.ar self.entry.vb self.entry.code self.entry.on.now) }
    {
        if !is_timeout(self.to, self.todt) {
            return Err(FieldFault {
                field: 4,
                offset: 8,
            });
        }
        if self.ar > 1 {
            return Err(FieldFault {
                field: 5,
                offset: 10,
            });
        }
        if self.vb > 4 {
            return Err(FieldFault {
                field: 6,
                offset: 11,
            });
        }
        if !is_code(self.kind, self.code) {
            return Err(FieldFault {
                field: 7,
                offset: 12,
            });
        }
        if !is_operation_number(self.on) {
            return Err(FieldFault {
                field: 8,
                offset: 14,
            });
        }
        Ok(())
    }
}
