// The next line of a reader.
ghost use Rattle.std.specs.Prelude.{◌≡◌, true, [], MatchResult};
ghost use Rattle.line_input.specs.Kept.{whole};
ghost use Rattle.line_input.specs.Lines.{settled, lawful};

use crate::keeping::drop_return;
use crate::piece::{Came, Next, at_end, take_in};
use std::io;
use std::io::{BufRead, Error, ErrorKind};

// The most bytes of a line, its line feed not counted.
pub const LIMIT: usize = 8192;

// A whole line, a line past the limit, or the end of the input.
#[derive(Clone, Copy, PartialEq, Eq, Debug)]
pub enum Got {
    Line,
    Long,
    End,
}

// Takes in what the reader holds at hand; it holds nothing at the end of the input.
fn take_piece<B: BufRead>(input: &mut B, line: &mut Vec<u8>, came: Came) -> io::Result<Next>
    requires { whole 8192 line.old.items ≡ true }
    ensures { whole 8192 line.new.items ≡ true }
{
    let held = match input.fill_buf() {
        Ok(held) => held,
        Err(e) if e.kind() == ErrorKind::Interrupted => return Ok(Next::Continue(came)),
        Err(e) => return Err(e),
    };
    if held.is_empty() {
        return Ok(Next::Break(at_end(came)));
    }
    let look = take_in(line, came, held)?;
    input.consume(look.spent);
    Ok(look.next)
}

// Takes in the reader's bytes up to a line feed or the end. The range counts nothing: a reader may give pieces without end,
// and a loop needs a bound.
fn fill_line<B: BufRead>(input: &mut B, line: &mut Vec<u8>) -> io::Result<Got>
    requires { whole 8192 line.old.items ≡ true }
    ensures { whole 8192 line.new.items ≡ true }
{
    let mut came = Came::Nothing;
    for _ in 0..u64::MAX {
        match take_piece(input, line, came)? {
            Next::Continue(more) => came = more,
            Next::Break(got) => return Ok(got),
        }
    }
    Err(Error::from(ErrorKind::TimedOut))
}

// A whole line drops the carriage return at its end, and anything else leaves no line.
fn settle(got: Got, line: &mut Vec<u8>)
    ensures { line.new.items ≡ settled got line.old.items }
{
    match got {
        Got::Line => drop_return(line),
        Got::Long | Got::End => line.clear(),
    }
}

// The next line, without its line feed and a carriage return before that. Of a line past the limit nothing is kept, and
// the next call goes on after it.
pub fn next_line<B: BufRead>(input: &mut B, line: &mut Vec<u8>) -> io::Result<Got>
    ensures { MatchResult result (λ got. lawful got line.new.items ≡ true) (λ _. line.new.items ≡ []) }
{
    line.clear();
    match fill_line(input, line) {
        Ok(got) => {
            settle(got, line);
            Ok(got)
        }
        Err(e) => {
            line.clear();
            Err(e)
        }
    }
}
