// Reading a record, and writing what was read.
ghost use Rattle.std.specs.Prelude.{◌≡◌, length};
ghost use Rattle.rewriting.specs.Rewrites.{told_rewrite, rewrite_answer, rewrite_after, Rewritten};

use crate::fault::RewriteFault;
use envelope_fields::fields::Fields;
use envelope_reading::reading::read;
use writing::writing::write;

fn transcribe(rec: &[u8], buf: &mut [u8]) -> Result<usize, RewriteFault>
    ensures answer { told_rewrite result ≡ rewrite_answer rec.now (length buf.old) }
    ensures after { buf.new ≡ rewrite_after rec.now buf.old }
{
    let envelope = read(rec)?;
    let n = write(Fields::from(envelope), buf)?;
    Ok(n)
}

// Reads `rec`, and writes its fields at the front of `buf`: where there is room, the same bytes again.
// The buffer is left as it was at a refusal.
pub fn rewrite(rec: &[u8], buf: &mut [u8]) -> Result<usize, RewriteFault>
    ensures answer { told_rewrite result ≡ rewrite_answer rec.now (length buf.old) }
    ensures after { buf.new ≡ rewrite_after rec.now buf.old }
    ensures same { Rewritten rec.now buf.old result buf.new }
{
    transcribe(rec, buf)
}
