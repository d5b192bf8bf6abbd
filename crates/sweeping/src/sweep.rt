// What is due by the clock alone: a try that nobody answered, a message that expired, a status that was kept long enough.
ghost use Rattle.std.specs.Prelude.{◌≡◌, max, length};
ghost use Rattle.sweeping.specs.Sweeps.{chore, sweep_answer, sweep_state, LowestDue};

use ending::act::{Act, Done, Task, perform};
use relay::relay::Relay;
use searches::search::Duty;
use searches::table::first_duty;
use spool::Spool;
use standing::standing::Standing;

// The code by which a message is reported that expired before it was delivered.
const EXPIRED: u16 = 405;

// What a sweep did, and at which place.
#[derive(Clone, Copy)]
pub struct Swept {
    pub place: usize,
    pub done: Done,
}

// What a duty asks to be done with the envelope that it was found at.
// The standing is matched again: a duty is found in a crate that knows of no acts, and one that carried what its act needs would
// say each of them twice.
fn chore(duty: Duty, standing: Standing) -> Option<Task>
    ensures { result ≡ chore duty standing }
{
    match (duty, standing) {
        (Duty::GiveUp, Standing::Out { failed, about, .. }) => Some(Task {
            about,
            act: Act::WaitAgain { failed },
        }),
        (Duty::Expire, Standing::Waiting { about, .. }) => Some(Task {
            about,
            act: Act::Report { code: EXPIRED },
        }),
        (Duty::EndStatus, Standing::Waiting { about, .. }) => Some(Task {
            about,
            act: Act::DoubleFault,
        }),
        _ => None,
    }
}

fn sweep_one<S: Spool>(relay: &mut Relay<S>, clock: u32) -> Option<Swept>
    ensures answer { result ≡ sweep_answer relay.old clock }
    ensures state { relay.new ≡ sweep_state relay.old clock }
    ensures full { length relay.old.standings ≡ 256 }
{
    relay.tick(clock);
    let found = first_duty(&relay.table, relay.time)?;
    let place = found.place;
    let task = chore(found.duty, relay.table.at(place))?;
    let done = perform(relay, place, task);
    Some(Swept { place, done })
}

// Does what is due at the lowest place where something is; nothing where nothing is due.
pub fn sweep<S: Spool>(relay: &mut Relay<S>, clock: u32) -> Option<Swept>
    ensures answer { result ≡ sweep_answer relay.old clock }
    ensures state { relay.new ≡ sweep_state relay.old clock }
    ensures lowest_due { LowestDue (max relay.old.time clock) relay.old.standings result }
{
    sweep_one(relay, clock)
}
