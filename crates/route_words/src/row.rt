// The row of a route table that three words stand for: ADDRESS|* DATAFLOW|* NEIGHBOUR|local
ghost use Rattle.std.specs.Prelude.{◌≡◌, vec_items};
ghost use Rattle.std.specs.Option.{option_map};
ghost use Rattle.arguments.specs.Faults.{Gives};
ghost use Rattle.routing.specs.Making.{lent};
ghost use Rattle.route_words.specs.Rows.{row_text, way_argument, row_from};

use arguments::fault::{CallFault, LineFault};
use arguments::value::{read_number, read_text};
use routing::row::{RouteRow, Way};
use std::alloc::Global;
use words::cut::is_word;

// A text of a row, which keeps at most so many bytes; `*` stands for none.
fn row_text(heap: Global, word: &[u8], most: usize) -> Result<Option<Vec<u8>>, CallFault>
    ensures { Gives (option_map vec_items) result (row_text most word.now) }
{
    if is_word(word, b"*") {
        return Ok(None);
    }
    let text = read_text(heap, word)?;
    if text.len() <= most {
        Ok(Some(text))
    } else {
        Err(LineFault::BadWord.into())
    }
}

fn way_of(word: &[u8]) -> Result<Way, LineFault>
    ensures { result ≡ way_argument word.now }
{
    if is_word(word, b"local") {
        return Ok(Way::Local);
    }
    let number = read_number(word, 255)?;
    Ok(Way::Neighbour(number as u8))
}

// The words from left to right, the first that is wrong; then a row that cannot be made.
pub fn row_of(
    heap: Global,
    address: &[u8],
    dataflow: &[u8],
    way: &[u8],
) -> Result<RouteRow, CallFault>
    ensures { Gives (λ row. row) result (row_from address.now dataflow.now way.now) }
{
    let address = row_text(heap, address, 64)?;
    let dataflow = row_text(heap, dataflow, 256)?;
    let way = way_of(way)?;
    let row = RouteRow::new(address.as_deref(), dataflow.as_deref(), way);
    Ok(row.ok_or(LineFault::BadWord)?)
}
