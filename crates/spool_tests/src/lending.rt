// What a caller knows of the spools that it has put together: proved here first, and then played.
ghost use Rattle.std.specs.Prelude.{◌≡◌, [], replicate};
ghost use Rattle.spool.specs.Meaning.{store_answer};
ghost use Rattle.spool.specs.Uses.{return_answer, returned};
ghost use Rattle.tray.specs.Trays.{empty_tray};
ghost use Rattle.place_spool.specs.Memory.{places_in, wiped, memory_stored};
ghost use Rattle.joined_spool.specs.Joins.{joined};

use joined_spool::Joined;
use place_spool::PlaceSpool;
use spool::Spool;
use spool::fault::SpoolFault;
use spool::uses::store_and_fetch;
use std::test::*;
use tray::Tray;

// The memory, once the place spool over it is gone: wiped, and then the length and the bytes in their cell.
fn store_in(memory: &mut [u8], place: usize, bytes: &[u8]) -> Result<(), SpoolFault>
    ensures answer { result ≡ store_answer place bytes.now (replicate (places_in memory.old) []) }
    ensures memory { memory.new ≡ memory_stored place bytes.now (wiped memory.old) }
{
    let mut spool = PlaceSpool::new(memory);
    spool.store(place, bytes)
}

// What is stored in a tray joined to a place spool comes back.
fn store_in_either(
    memory: &mut [u8],
    place: usize,
    bytes: &[u8],
    buf: &mut [u8],
) -> Result<usize, SpoolFault>
    ensures answer { result ≡ return_answer place bytes.now buf.old (joined empty_tray (replicate (places_in memory.old) [])) }
    ensures buffer { buf.new ≡ returned place bytes.now buf.old (joined empty_tray (replicate (places_in memory.old) [])) }
{
    let mut spool = Joined::new(Tray::new(), PlaceSpool::new(memory));
    store_and_fetch(&mut spool, place, bytes, buf)
}

#[test]
fn the_lender_finds_the_frame(rt: HostRuntime) -> Result<(), Fail> {
    let mut memory = [255; 4101];
    assert_eq!(rt; store_in(&mut memory, 1, b"abc"), Ok(()));
    assert!(rt; memory[2048..2056] == [0, 0, 3, 0, b'a', b'b', b'c', 0]);
    assert!(rt; memory[4099..4101] == [0, 0]);
    Ok(())
}

#[test]
fn either_part_keeps_bytes(rt: HostRuntime) -> Result<(), Fail> {
    let mut memory = [255; 2050];
    let mut buf = [7; 4];
    assert_eq!(rt; store_in_either(&mut memory, 15, b"abc", &mut buf), Ok(3));
    assert!(rt; buf == [b'a', b'b', b'c', 7]);
    assert_eq!(rt; store_in_either(&mut memory, 16, b"de", &mut buf), Ok(2));
    assert!(rt; buf == [b'd', b'e', b'c', 7]);
    assert_eq!(rt;
        store_in_either(&mut memory, 17, b"f", &mut buf),
        Err(SpoolFault::NoPlace)
    );
    Ok(())
}
