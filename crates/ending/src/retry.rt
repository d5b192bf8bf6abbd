// Waiting again after a failed try.
ghost use Rattle.std.specs.Prelude.{◌≡◌};
ghost use Rattle.ending.specs.Retries.{delay_after, one_more, due_again, waits_again};

use relay::relay::Relay;
use spool::Spool;

// More failed tries than so many make no difference, and are not counted.
const MOST_FAILED: u8 = 6;

fn one_more(failed: u8) -> u8
    ensures { result ≡ one_more failed }
{
    if failed < MOST_FAILED {
        failed + 1
    } else {
        MOST_FAILED
    }
}

// How many seconds an envelope waits after so many failed tries.
fn delay_after(failed: u8) -> u64
    ensures { result ≡ delay_after failed }
{
    match failed {
        0 => 0,
        1 => 60,
        2 => 120,
        3 => 300,
        4 => 600,
        5 => 1800,
        _ => 3600,
    }
}

// One more try of the envelope that is out at a place has failed, after so many: it waits again. Tells until when.
pub(crate) fn retry<S: Spool>(relay: &mut Relay<S>, place: usize, failed: u8) -> u64
    ensures due { result ≡ due_again relay.old.time failed }
    ensures state { relay.new ≡ waits_again relay.old place failed }
{
    let failed = one_more(failed);
    let due = relay.time as u64 + delay_after(failed);
    relay.table.wait_again(place, due, failed);
    due
}
