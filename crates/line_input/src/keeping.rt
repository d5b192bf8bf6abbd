// The bytes that are kept of a line.
ghost use Rattle.std.specs.Prelude.{◌≡◌, is_ok, IfOk, if◌then◌else◌};
ghost use Rattle.line_input.specs.Kept.{fits, kept_line, ends_in_return, without_return};

use crate::input::LIMIT;
use std::io;

// Adds the bytes where they fit the limit; else nothing.
pub(crate) fn keep(line: &mut Vec<u8>, bytes: &[u8]) -> io::Result<bool>
    ensures answer { IfOk result (λ kept. kept ≡ fits 8192 line.old.items bytes.now) }
    ensures after { line.new.items ≡ (if is_ok result then kept_line 8192 line.old.items bytes.now else line.old.items) }
{
    if line.len() > LIMIT || bytes.len() > LIMIT - line.len() {
        return Ok(false);
    }
    line.extend_from_slice(bytes)?;
    Ok(true)
}

fn ends_in_return(line: &[u8]) -> bool
    ensures { result ≡ ends_in_return line.now }
{
    line.last() == Some(&b'\r')
}

// Drops a carriage return at the end.
pub(crate) fn drop_return(line: &mut Vec<u8>)
    ensures { line.new.items ≡ without_return line.old.items }
{
    if ends_in_return(line.as_slice()) {
        line.pop();
    }
}
