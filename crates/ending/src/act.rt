// What is to be done with an envelope, and what was done.
ghost use Rattle.std.specs.Prelude.{◌≡◌};
ghost use Rattle.ending.specs.Acts.{done_as, performed};

use crate::double_fault::double_fault;
use crate::report::report;
use crate::retry::retry;
use envelope::parts::Kind;
use relay::relay::Relay;
use spool::Spool;
use standing::standing::About;

#[derive(Clone, Copy)]
pub enum Act {
    // wait for another try, after so many failed ones before
    WaitAgain { failed: u8 },
    PassOn,
    // tell the originator by this code
    Report { code: u16 },
    DoubleFault,
}

#[derive(Clone, Copy)]
pub enum Done {
    Waits { due: u64 },
    PassedOn { kind: Kind },
    Reported { code: u16 },
    Noticed,
    Dropped { kind: Kind },
}

// An act, and what is known of the envelope that it is done with.
#[derive(Clone, Copy)]
pub struct Task {
    pub about: About,
    pub act: Act,
}

// Does it with the envelope at a place.
pub fn perform<S: Spool>(relay: &mut Relay<S>, place: usize, task: Task) -> Done
    ensures done { result ≡ done_as relay.old place task }
    ensures state { relay.new ≡ performed relay.old place task }
{
    let about = task.about;
    match task.act {
        Act::WaitAgain { failed } => {
            let due = retry(relay, place, failed);
            Done::Waits { due }
        }
        Act::PassOn => {
            relay.discharge(place);
            Done::PassedOn { kind: about.kind }
        }
        Act::Report { code } => {
            if report(relay, place, code, about.back) {
                Done::Reported { code }
            } else {
                Done::Dropped { kind: about.kind }
            }
        }
        Act::DoubleFault => {
            if double_fault(relay, place, about) {
                Done::Noticed
            } else {
                Done::Dropped { kind: about.kind }
            }
        }
    }
}
