// Reading a line as a call.
ghost use Rattle.std.specs.Option.{option_map};
ghost use Rattle.words.specs.Cuts.{seen};
ghost use Rattle.arguments.specs.Faults.{Gives};
ghost use Rattle.calls.specs.Calls.{asked, verb_call, call_of, line_call};

use crate::call::Call;
use crate::envelope_words::envelope_call;
use crate::question::{reason_call, way_call};
use crate::route_table::{forget_call, route_call};
use arguments::fault::{CallFault, LineFault};
use std::alloc::Global;
use words::cut::{is_word, words};

// One word after the other: of a `match` on the bytes the last arm's proof did not close.
fn verb_call(heap: Global, verb: &[u8], args: &[&[u8]]) -> Result<Call, CallFault>
    ensures { Gives asked result (verb_call verb.now (seen args.now)) }
{
    if is_word(verb, b"envelope") {
        envelope_call(heap, args)
    } else if is_word(verb, b"route") {
        route_call(heap, args)
    } else if is_word(verb, b"forget") {
        forget_call(args)
    } else if is_word(verb, b"way") {
        way_call(heap, args)
    } else if is_word(verb, b"reason") {
        reason_call(heap, args)
    } else {
        Err(LineFault::UnknownVerb.into())
    }
}

fn words_call(heap: Global, words: &[&[u8]]) -> Result<Option<Call>, CallFault>
    ensures { Gives (option_map asked) result (call_of (seen words.now)) }
{
    let [verb, args @ ..] = words else {
        return Ok(None);
    };
    let call = verb_call(heap, verb, args)?;
    Ok(Some(call))
}

// The call that a line makes; none where it has no words.
pub fn read_call(heap: Global, line: &[u8]) -> Result<Option<Call>, CallFault>
    ensures { Gives (option_map asked) result (line_call line.now) }
{
    let all = words(heap, line)?;
    words_call(heap, all.as_slice())
}
