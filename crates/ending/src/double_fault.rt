// A status that cannot be delivered: nobody is left to be told by an envelope.
ghost use Rattle.std.specs.Prelude.{◌≡◌};
ghost use Rattle.ending.specs.DoubleFaults.{double_fault};

use relay::relay::Relay;
use spool::Spool;
use standing::standing::About;

// Where contacts want to hear of it the place becomes a notice; else it is dropped. Says whether it became a notice.
pub(crate) fn double_fault<S: Spool>(relay: &mut Relay<S>, place: usize, about: About) -> bool
    ensures notified { result ≡ about.notify }
    ensures state { relay.new ≡ double_fault relay.old place about }
{
    if about.notify {
        relay.table.become_notice(place, relay.time, about);
    } else {
        relay.discharge(place);
    }
    about.notify
}
