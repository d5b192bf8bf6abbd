// What is played on a spool of any kind.
use spool::Spool;
use spool::fault::SpoolFault;
use std::process::Abort;
use std::test::*;

// Stores at the place, and copies the same bytes out again.
pub(crate) fn expect_kept<S: Spool>(
    rt: &impl Abort,
    spool: &mut S,
    place: usize,
    bytes: &[u8],
) -> Result<(), Fail> {
    let mut buf = [7; 2049];
    assert_eq!(rt; spool.store(place, bytes), Ok(()));
    assert_eq!(rt; spool.length(place), Ok(bytes.len()));
    assert_eq!(rt; spool.copy_out(place, &mut buf), Ok(bytes.len()));
    assert!(rt; buf.starts_with(bytes));
    assert_eq!(rt; buf[2048], 7);
    Ok(())
}

// The place is there, and empty.
pub(crate) fn expect_empty<S: Spool>(rt: &impl Abort, spool: &S, place: usize) -> Result<(), Fail> {
    let mut buf = [7; 1];
    assert_eq!(rt; spool.length(place), Ok(0));
    assert_eq!(rt; spool.copy_out(place, &mut buf), Ok(0));
    assert_eq!(rt; buf[0], 7);
    assert_eq!(rt; spool.copy_out(place, &mut []), Ok(0));
    Ok(())
}

// There is no such place: each call says so first, whatever else is wrong with it.
pub(crate) fn expect_no_place<S: Spool>(
    rt: &impl Abort,
    spool: &mut S,
    place: usize,
) -> Result<(), Fail> {
    assert_eq!(rt; spool.length(place), Err(SpoolFault::NoPlace));
    assert_eq!(rt; spool.store(place, b"a"), Err(SpoolFault::NoPlace));
    assert_eq!(rt; spool.store(place, b""), Err(SpoolFault::NoPlace));
    assert_eq!(rt; spool.clear(place), Err(SpoolFault::NoPlace));
    assert_eq!(rt; spool.copy_out(place, &mut []), Err(SpoolFault::NoPlace));
    Ok(())
}

// So many places, the first and the last of them empty.
pub(crate) fn expect_places<S: Spool>(
    rt: &impl Abort,
    spool: &mut S,
    count: usize,
) -> Result<(), Fail> {
    assert_eq!(rt; spool.count(), count);
    if count > 0 {
        expect_empty(rt, spool, 0)?;
        expect_empty(rt, spool, count - 1)?;
    }
    expect_no_place(rt, spool, count)
}

// The lengths that a place takes and does not take, and a buffer that is one byte too short.
pub(crate) fn play_lengths<S: Spool>(
    rt: &impl Abort,
    spool: &mut S,
    place: usize,
) -> Result<(), Fail> {
    let mut buf = [7; 2];
    expect_kept(rt, spool, place, &[5; 2048])?;
    assert_eq!(rt; spool.store(place, &[6; 2049]), Err(SpoolFault::Unstorable));
    assert_eq!(rt; spool.store(place, &[]), Err(SpoolFault::Unstorable));
    assert_eq!(rt; spool.length(place), Ok(2048));
    expect_kept(rt, spool, place, b"abc")?;
    assert_eq!(rt;
        spool.copy_out(place, &mut buf),
        Err(SpoolFault::ShortBuffer)
    );
    assert_eq!(rt; buf[0], 7);
    expect_kept(rt, spool, place, b"z")?;
    assert_eq!(rt; spool.clear(place), Ok(()));
    expect_empty(rt, spool, place)?;
    assert_eq!(rt; spool.clear(place), Ok(()));
    Ok(())
}
