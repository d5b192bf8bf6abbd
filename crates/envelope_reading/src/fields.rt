// The fields of a record whose length is right, checked in their order.
ghost use Rattle.std.specs.Prelude.{◌≡◌, ◌+◌, ◌≤◌, length, IfOk, MatchResult};
ghost use Rattle.std.specs.Fn.{FnReturnsAt};
ghost use Rattle.envelope.specs.Views.{seen, kind_number};
ghost use Rattle.envelope.specs.Integers.{u16_at};
ghost use Rattle.envelope.specs.Layout.{next, moving_rows, first_broken, fields};
ghost use Rattle.envelope.specs.Results.{unless};
ghost use Rattle.envelope.specs.Decoding.{told_parts};
ghost use Rattle.envelope_reading.specs.Forms.{Cut, Broken, FixedIn};

use crate::integers::{u16_at, u32_at};
use envelope::fault::FieldFault;
use envelope::fixed::Fixed;
use envelope::parts::{Kind, Part, Parts};
use text::forms::{is_address, is_contacts, is_dataflow};

// The fields at fixed offsets, as they stand.
pub(crate) fn fixed_of(rec: &[u8], kind: Kind) -> Fixed<'_>
    requires { (49 ≤ length rec.now) × (kind_number kind ≡ u16_at rec.now 2) }
    ensures { FixedIn rec.now result }
{
    Fixed {
        kind,
        todt: u32_at(rec, 4),
        to: u16_at(rec, 8),
        ar: rec[10],
        vb: rec[11],
        code: u16_at(rec, 12),
        on: &rec[14..34],
    }
}

// The field whose length stands at `at`, if its bytes have this form.
fn field_at<F: Fn(&[u8]) -> bool>(
    rec: &[u8],
    field: u8,
    at: usize,
    form: F,
) -> Result<Part<'_>, FieldFault>
    requires inside { at ≤ length rec.now }
    requires form { F.IsAlwaysCallable form }
    ensures value { MatchResult result (λ p. Cut (FnReturnsAt F.Fn form) rec.now at (seen p)) (λ f. Broken (FnReturnsAt F.Fn form) rec.now at × ((f.field ≡ field) × (f.offset ≡ at))) }
    ensures ends { IfOk result (λ p. (p.at + length p.bytes.now ≡ next rec.now at) × (next rec.now at ≤ length rec.now)) }
{
    let fault = FieldFault { field, offset: at };
    if rec.len() - at < 2 {
        return Err(fault);
    }
    let from = at + 2;
    let n = u16_at(rec, at) as usize;
    let bytes = rec[from..].get(..n).ok_or(fault)?;
    if form(bytes) {
        Ok(Part { bytes, at: from })
    } else {
        Err(fault)
    }
}

// The parts of a record whose fields 1 to 8 are in form, of which those at fixed offsets were read.
pub(crate) fn parts_of<'a>(rec: &'a [u8], fixed: Fixed<'a>) -> Result<Parts<'a>, FieldFault>
    requires { (49 ≤ length rec.now) × FixedIn rec.now fixed }
    ensures { told_parts result ≡ unless (first_broken (moving_rows rec.now)) (fields rec.now) }
{
    let fr = field_at(rec, 9, 34, is_address)?;
    let ad = field_at(rec, 10, fr.at + fr.bytes.len(), is_address)?;
    let df = field_at(rec, 11, ad.at + ad.bytes.len(), is_dataflow)?;
    let ct = field_at(rec, 12, df.at + df.bytes.len(), is_contacts)?;
    let end = ct.at + ct.bytes.len();
    Ok(Parts {
        todt: fixed.todt,
        to: fixed.to,
        ar: fixed.ar,
        vb: fixed.vb,
        on: Part {
            bytes: fixed.on,
            at: 14,
        },
        fr,
        ad,
        df,
        ct,
        rest: Part {
            bytes: &rec[end..],
            at: end,
        },
    })
}
