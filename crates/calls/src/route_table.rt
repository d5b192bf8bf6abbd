// route ADDRESS|* DATAFLOW|* NEIGHBOUR|local, forget routes
ghost use Rattle.words.specs.Cuts.{seen};
ghost use Rattle.arguments.specs.Faults.{Gives};
ghost use Rattle.calls.specs.Calls.{asked, route_call, forget_call};

use crate::call::Call;
use arguments::fault::{CallFault, LineFault};
use route_words::row::row_of;
use std::alloc::Global;
use words::cut::is_word;

pub(crate) fn route_call(heap: Global, words: &[&[u8]]) -> Result<Call, CallFault>
    ensures { Gives asked result (route_call (seen words.now)) }
{
    let [address, dataflow, way] = words else {
        return Err(LineFault::WrongWords.into());
    };
    let row = row_of(heap, address, dataflow, way)?;
    Ok(Call::AddRoute(row))
}

pub(crate) fn forget_call(words: &[&[u8]]) -> Result<Call, CallFault>
    ensures { Gives asked result (forget_call (seen words.now)) }
{
    let [table] = words else {
        return Err(LineFault::WrongWords.into());
    };
    if is_word(table, b"routes") {
        Ok(Call::ForgetRoutes)
    } else {
        Err(LineFault::BadWord.into())
    }
}
