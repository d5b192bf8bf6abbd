// The forms of fields that are to be written, checked in their order.
ghost use Rattle.std.specs.Prelude.{◌≡◌, OnOk};
ghost use Rattle.envelope.specs.Decoding.{checked, told_check};
ghost use Rattle.envelope_fields.specs.Plain.{plain};
ghost use Rattle.envelope_fields.specs.Forms.{fixed_rows, moving_rows, rows, Measured};

use crate::fields::Fields;
use envelope::fault::FieldFault;
use envelope::fixed::Fixed;
use text::forms::{is_address, is_contacts, is_dataflow};

// Fields 4 to 8.
fn check_fixed(fields: Fields<'_>) -> Result<(), FieldFault>
    ensures { told_check result ≡ checked (fixed_rows (plain fields.entry)) }
{
    let fixed = Fixed {
        kind: fields.content.kind(),
        todt: fields.todt,
        to: fields.to,
        ar: fields.ar,
        vb: fields.vb,
        code: fields.content.code(),
        on: fields.on,
    };
    fixed.check()
}

// Fields 9 to 12, each where it starts once those before it are written.
fn check_moving(fields: Fields<'_>) -> Result<(), FieldFault>
    ensures { told_check result ≡ checked (moving_rows (plain fields.entry)) }
{
    if !is_address(fields.fr) {
        return Err(FieldFault {
            field: 9,
            offset: 34,
        });
    }
    let offset = 36 + fields.fr.len();
    if !is_address(fields.ad) {
        return Err(FieldFault { field: 10, offset });
    }
    let offset = 38 + fields.fr.len() + fields.ad.len();
    if !is_dataflow(fields.df) {
        return Err(FieldFault { field: 11, offset });
    }
    let offset = 40 + fields.fr.len() + fields.ad.len() + fields.df.len();
    if !is_contacts(fields.ct) {
        return Err(FieldFault { field: 12, offset });
    }
    Ok(())
}

// The first field that is not in form.
pub fn check(fields: Fields<'_>) -> Result<(), FieldFault>
    ensures value { told_check result ≡ checked (rows (plain fields.entry)) }
    ensures measured { OnOk result (Measured (plain fields.entry)) }
{
    check_fixed(fields)?;
    check_moving(fields)
}
