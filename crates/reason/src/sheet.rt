// The lines of a text sheet, searched for a code.
ghost use Rattle.std.specs.Prelude.{◌≡◌, ◌≤◌, length, IfSome};
ghost use Rattle.std.specs.Option.{option_map};
ghost use Rattle.envelope.specs.Lawful.{PartOf};
ghost use Rattle.envelope.specs.Views.{seen};
ghost use Rattle.reason.specs.Sheets.{line_at, seen_line, text_of, shown, First};

use envelope::parts::Part;

// A line: its code, its text, and where the next line starts.
#[derive(Clone, Copy)]
struct Line<'s> {
    code: u16,
    text: Part<'s>,
    next: usize,
}

// The line that stands at `at`: of 4 bytes or more, and not past the sheet.
fn line_at(sheet: &[u8], at: usize) -> Option<Line<'_>>
    requires { at ≤ length sheet.now }
    ensures { option_map seen_line result ≡ line_at sheet.now at }
{
    let rest = &sheet[at..];
    let [low, high, code_low, code_high] = *rest.first_chunk::<4>()?;
    let len = u16::from_le_bytes([low, high]) as usize;
    let text = rest.get(4..len)?;
    Some(Line {
        code: u16::from_le_bytes([code_low, code_high]),
        text: Part {
            bytes: text,
            at: at + 4,
        },
        next: at + len,
    })
}

fn first_text(sheet: &[u8], code: u16) -> Option<Part<'_>>
    ensures { shown result ≡ text_of sheet.now code }
{
    let mut at = 0;
    while let Some(line) = line_at(sheet, at) {
        if line.code == code {
            return Some(line.text);
        }
        at = line.next;
    }
    None
}

// The text of the first line with the code, as a part of the sheet.
pub fn line_of(sheet: &[u8], code: u16) -> Option<Part<'_>>
    ensures value { shown result ≡ text_of sheet.now code }
    ensures first { First sheet.now code 0 (shown result) }
    ensures placed { IfSome (shown result) (PartOf sheet.now) }
{
    first_text(sheet, code)
}
