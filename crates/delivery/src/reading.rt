// Reading the record of a try.
ghost use Rattle.std.specs.Prelude.{◌≡◌};
ghost use Rattle.relay.specs.States.{timed};
ghost use Rattle.delivery.specs.Readings.{is_out_under, read_answer, read_buffer};

use crate::fault::ReadFault;
use relay::relay::Relay;
use spool::Spool;
use standing::standing::Standing;

fn is_out_under(standing: Standing, number: u32) -> bool
    ensures { result ≡ is_out_under number standing }
{
    matches!(standing, Standing::Out { number: out, .. } if out == number)
}

// Copies the record that is out at a place under a try number to the front of the buffer, and tells its length. The buffer
// is left as it was at a refusal.
pub fn read_out<S: Spool>(
    relay: &mut Relay<S>,
    clock: u32,
    place: usize,
    number: u32,
    buf: &mut [u8],
) -> Result<usize, ReadFault>
    ensures answer { result ≡ read_answer relay.old place number buf.old }
    ensures buffer { buf.new ≡ read_buffer relay.old place number buf.old }
    ensures state { relay.new ≡ timed relay.old clock }
{
    relay.tick(clock);
    if !is_out_under(relay.table.at(place), number) {
        return Err(ReadFault::NotOut);
    }
    let length = relay.spool.copy_out(place, buf)?;
    Ok(length)
}
