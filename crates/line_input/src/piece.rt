// A line that comes in pieces, as a reader holds them.
ghost use Rattle.std.specs.Prelude.{◌≡◌, is_ok, IfOk, if◌then◌else◌};
ghost use Rattle.line_input.specs.Pieces.{got_at_end, came_of, over_after, kept_after, look_of, line_after};

use crate::input::Got;
use crate::keeping::keep;
use std::io;
use std::ops::ControlFlow;
use words::cut::len_before;

// What has come of a line: nothing yet, bytes within the limit, or too many.
#[derive(Clone, Copy)]
pub(crate) enum Came {
    Nothing,
    Short,
    Over,
}

// The line goes on, or is done.
pub(crate) type Next = ControlFlow<Got, Came>;

// How many bytes of a piece belong to the line and its line feed, and how it goes on after them.
#[derive(Clone, Copy)]
pub(crate) struct Look {
    pub(crate) spent: usize,
    pub(crate) next: Next,
}

// What the end of the input makes of a line.
pub(crate) fn at_end(came: Came) -> Got
    ensures { result ≡ got_at_end came }
{
    match came {
        Came::Nothing => Got::End,
        Came::Short => Got::Line,
        Came::Over => Got::Long,
    }
}

// Keeps more of the line, where it is not too long.
fn keep_more(line: &mut Vec<u8>, came: Came, bytes: &[u8]) -> io::Result<Came>
    ensures answer { IfOk result (λ now. now ≡ came_of (over_after 8192 came line.old.items bytes.now)) }
    ensures after { line.new.items ≡ (if is_ok result then kept_after 8192 came line.old.items bytes.now else line.old.items) }
{
    match came {
        Came::Over => Ok(Came::Over),
        Came::Nothing | Came::Short => {
            if keep(line, bytes)? {
                Ok(Came::Short)
            } else {
                Ok(Came::Over)
            }
        }
    }
}

// Takes in what a piece holds of the line.
#[tactic(auto, using(crate::proofs::Ends::end_of_kept))]
pub(crate) fn take_in(line: &mut Vec<u8>, came: Came, held: &[u8]) -> io::Result<Look>
    ensures answer { IfOk result (λ look. look ≡ look_of 8192 came line.old.items held.now) }
    ensures after { line.new.items ≡ (if is_ok result then line_after 8192 came line.old.items held.now else line.old.items) }
{
    let end = len_before(held, b'\n');
    let now = keep_more(line, came, &held[0..end])?;
    if end < held.len() {
        Ok(Look {
            spent: end + 1,
            next: Next::Break(at_end(now)),
        })
    } else {
        Ok(Look {
            spent: end,
            next: Next::Continue(now),
        })
    }
}
