// envelope record HEX, envelope message KEYED-WORDS, envelope status KEYED-WORDS
// Memory and words go separately through all of these: a struct of the two would be taken apart wherever one is used.
ghost use Rattle.words.specs.Cuts.{seen};
ghost use Rattle.arguments.specs.Faults.{Gives};
ghost use Rattle.calls.specs.Calls.{asked, record_call, fields_call, envelope_call};

use crate::call::Call;
use arguments::fault::{CallFault, LineFault};
use arguments::value::read_hex;
use envelope::parts::Kind;
use keyed::fields::read_fields;
use std::alloc::Global;
use words::cut::is_word;

fn record_call(heap: Global, words: &[&[u8]]) -> Result<Call, CallFault>
    ensures { Gives asked result (record_call (seen words.now)) }
{
    let [word] = words else {
        return Err(LineFault::WrongWords.into());
    };
    let bytes = read_hex(heap, word)?;
    Ok(Call::ReadRecord(bytes))
}

fn fields_call(heap: Global, kind: Kind, words: &[&[u8]]) -> Result<Call, CallFault>
    ensures { Gives asked result (fields_call kind (seen words.now)) }
{
    let fields = read_fields(heap, kind, words)?;
    Ok(Call::WriteFields(fields))
}

pub(crate) fn envelope_call(heap: Global, words: &[&[u8]]) -> Result<Call, CallFault>
    ensures { Gives asked result (envelope_call (seen words.now)) }
{
    let [kind, rest @ ..] = words else {
        return Err(LineFault::WrongWords.into());
    };
    // A `match` on the word was tried, and its last arm did not close.
    if is_word(kind, b"record") {
        record_call(heap, rest)
    } else if is_word(kind, b"message") {
        fields_call(heap, Kind::Message, rest)
    } else if is_word(kind, b"status") {
        fields_call(heap, Kind::Status, rest)
    } else {
        Err(LineFault::BadWord.into())
    }
}
