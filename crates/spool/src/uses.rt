// Code that works over every spool, from what the trait promises alone.
ghost use Rattle.std.specs.Prelude.{◌≡◌, ◌<◌, [], length, slice_set};
ghost use Rattle.spool.specs.Meaning.{stored, length_answer, copied};
ghost use Rattle.spool.specs.Uses.{emptied, return_answer, returned};

use crate::Spool;
use crate::fault::SpoolFault;

fn empty<S: Spool>(spool: &mut S, place: usize)
    requires { place < length (S.held spool.old) }
    ensures { S.held spool.new ≡ slice_set (S.held spool.old) place [] }
{
    let _ = spool.clear(place);
}

// Empties every place, by its number: a spool has no list of its places to go over.
pub fn clear_all<S: Spool>(spool: &mut S)
    ensures { S.held spool.new ≡ emptied (S.held spool.old) }
{
    let count = spool.count();
    for place in 0..count {
        empty(spool, place);
    }
}

// Stores the bytes, and fetches from the same place: the same bytes come back.
pub fn store_and_fetch<S: Spool>(
    spool: &mut S,
    place: usize,
    bytes: &[u8],
    buf: &mut [u8],
) -> Result<usize, SpoolFault>
    ensures answer { result ≡ return_answer place bytes.now buf.old (S.held spool.old) }
    ensures buffer { buf.new ≡ returned place bytes.now buf.old (S.held spool.old) }
    ensures after { S.held spool.new ≡ stored place bytes.now (S.held spool.old) }
{
    spool.store(place, bytes)?;
    spool.copy_out(place, buf)
}

// Copies out to a buffer that is never too short.
pub fn copy_whole<S: Spool>(
    spool: &S,
    place: usize,
    buf: &mut [u8; 2048],
) -> Result<usize, SpoolFault>
    ensures answer { result ≡ length_answer place (S.held spool.now) }
    ensures after { buf.new ≡ copied place buf.old (S.held spool.now) }
{
    spool.copy_out(place, buf)
}
