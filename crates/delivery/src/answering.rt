// Taking what the neighbour answered to a try.
ghost use Rattle.std.specs.Prelude.{◌≡◌};
ghost use Rattle.delivery.specs.Answers.{task_after, answer_told, answer_state};

use crate::fault::AnswerFault;
use crate::outcome::{Outcome, Reply, reply_of};
use ending::act::{Act, Done, Task, perform};
use envelope::parts::Kind;
use relay::relay::Relay;
use spool::Spool;
use standing::standing::Standing;

// What a reply asks to be done with an envelope, if it is out under that try number.
fn task_after(standing: Standing, number: u32, reply: Reply) -> Option<Task>
    ensures { result ≡ task_after number reply standing }
{
    let Standing::Out {
        number: out,
        failed,
        about,
        ..
    } = standing
    else {
        return None;
    };
    if out != number {
        return None;
    }
    let receipt = about.receipt;
    let act = match (about.kind, reply) {
        (Kind::Message, Reply::Receipt(code)) if receipt => Act::Report { code },
        (_, Reply::Receipt(_) | Reply::Accepted) => Act::PassOn,
        (Kind::Message, Reply::Permanent(code)) => Act::Report { code },
        (Kind::Status, Reply::Permanent(_)) => Act::DoubleFault,
        (_, Reply::Temporary) => Act::WaitAgain { failed },
    };
    Some(Task { about, act })
}

// What became of the envelope that is out at a place under a try number. An answer to any other try is refused. (A struct of
// place and number would be taken apart at once, here and in reading: the table is asked by the one and compared by the other.)
pub fn answer<S: Spool>(
    relay: &mut Relay<S>,
    clock: u32,
    place: usize,
    number: u32,
    outcome: Outcome,
) -> Result<Done, AnswerFault>
    ensures answer { result ≡ answer_told relay.old clock place number outcome }
    ensures state { relay.new ≡ answer_state relay.old clock place number outcome }
{
    relay.tick(clock);
    let task = task_after(relay.table.at(place), number, reply_of(outcome)).ok_or(
        AnswerFault::NotOut,
    )?;
    Ok(perform(relay, place, task))
}
