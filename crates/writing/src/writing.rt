// Writing fields as a record into a lent buffer.
ghost use Rattle.std.specs.Prelude.{◌≡◌, ◌≤◌, length, IfOk};
ghost use Rattle.envelope_fields.specs.Plain.{plain};
ghost use Rattle.envelope_fields.specs.Forms.{Measured};
ghost use Rattle.writing.specs.Buffers.{filled};
ghost use Rattle.writing.specs.Encoding.{size, encode};
ghost use Rattle.writing.specs.Answers.{told_write, write_answer, buffer_after};
ghost use Rattle.writing.specs.Trips.{ReadsBack, OwnBytes};

use crate::draft::Draft;
use crate::fault::WriteFault;
use envelope_fields::check::check;
use envelope_fields::fields::Fields;

// The length of the record.
fn size_of(fields: Fields<'_>) -> usize
    requires { Measured (plain fields) }
    ensures { result ≡ size (plain fields.entry) }
{
    42 + fields.fr.len() + fields.ad.len() + fields.df.len() + fields.ct.len() + fields.rest.len()
}

// Writes the record of `n` bytes, field after field.
fn put_all(fields: Fields<'_>, n: u16, draft: &mut Draft<'_>)
    requires fits { (n ≡ size (plain fields)) × (size (plain fields) ≤ length draft.old.buf.now) }
    requires empty { draft.old.len ≡ 0 }
    requires measured { Measured (plain fields) }
    ensures after { draft.new.buf.now ≡ filled (encode (plain fields.entry)) draft.old.buf.now }
    ensures lender { draft.new.buf.ghost_name ≡ draft.old.buf.ghost_name }
{
    draft.put(&n.to_le_bytes());
    draft.put(&fields.content.kind().number().to_le_bytes());
    draft.put(&fields.todt.to_le_bytes());
    draft.put(&fields.to.to_le_bytes());
    draft.put(&[fields.ar, fields.vb]);
    draft.put(&fields.content.code().to_le_bytes());
    draft.put(fields.on);
    draft.put_field(fields.fr);
    draft.put_field(fields.ad);
    draft.put_field(fields.df);
    draft.put_field(fields.ct);
    draft.put(fields.rest);
}

fn fill(fields: Fields<'_>, n: u16, buf: &mut [u8])
    requires fits { (n ≡ size (plain fields)) × (size (plain fields) ≤ length buf.old) }
    requires measured { Measured (plain fields) }
    ensures { buf.new ≡ filled (encode (plain fields.entry)) buf.old }
{
    let mut draft = Draft::new(buf);
    put_all(fields, n, &mut draft);
}

fn compose(fields: Fields<'_>, buf: &mut [u8]) -> Result<usize, WriteFault>
    ensures answer { told_write result ≡ write_answer (plain fields.entry) (length buf.old) }
    ensures after { buf.new ≡ buffer_after (plain fields.entry) buf.old }
{
    check(fields)?;
    let n = size_of(fields);
    if n > 2048 {
        return Err(WriteFault::Length);
    }
    if n > buf.len() {
        return Err(WriteFault::Buffer);
    }
    fill(fields, n as u16, buf);
    Ok(n)
}

// Writes the fields as a record at the front of `buf`, and returns its length.
// The buffer is left as it was where a field is not in form, the record would be too long, or the buffer is too short.
pub fn write(fields: Fields<'_>, buf: &mut [u8]) -> Result<usize, WriteFault>
    ensures answer { told_write result ≡ write_answer (plain fields.entry) (length buf.old) }
    ensures after { buf.new ≡ buffer_after (plain fields.entry) buf.old }
    ensures reads_back { IfOk result (λ n. ReadsBack (plain fields.entry) n buf.new) }
    ensures own_bytes { OwnBytes (plain fields.entry) buf.old result buf.new }
{
    compose(fields, buf)
}
