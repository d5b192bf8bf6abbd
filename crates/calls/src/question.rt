// way ADDRESS DATAFLOW, reason HEX HEX
ghost use Rattle.words.specs.Cuts.{seen};
ghost use Rattle.arguments.specs.Faults.{Gives};
ghost use Rattle.calls.specs.Calls.{asked, way_call, reason_call};

use crate::call::Call;
use arguments::fault::{CallFault, LineFault};
use arguments::value::{read_hex, read_text};
use std::alloc::Global;

// The two stay apart: one function for both would take the two readers and the case as parameters, more than each body has.
pub(crate) fn way_call(heap: Global, words: &[&[u8]]) -> Result<Call, CallFault>
    ensures { Gives asked result (way_call (seen words.now)) }
{
    let [target, dataflow] = words else {
        return Err(LineFault::WrongWords.into());
    };
    let target = read_text(heap, target)?;
    let dataflow = read_text(heap, dataflow)?;
    Ok(Call::AskWay(target, dataflow))
}

pub(crate) fn reason_call(heap: Global, words: &[&[u8]]) -> Result<Call, CallFault>
    ensures { Gives asked result (reason_call (seen words.now)) }
{
    let [record, sheet] = words else {
        return Err(LineFault::WrongWords.into());
    };
    let record = read_hex(heap, record)?;
    let sheet = read_hex(heap, sheet)?;
    Ok(Call::AskReason(record, sheet))
}
