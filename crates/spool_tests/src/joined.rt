use crate::edges::{expect_empty, expect_kept, expect_places, play_lengths};
use joined_spool::Joined;
use place_spool::PlaceSpool;
use std::test::*;
use tray::Tray;

#[test]
fn two_trays_as_one(rt: HostRuntime) -> Result<(), Fail> {
    let mut spool = Joined::new(Tray::new(), Tray::new());
    expect_places(&rt, &mut spool, 32)?;
    play_lengths(&rt, &mut spool, 15)?;
    play_lengths(&rt, &mut spool, 16)?;
    expect_kept(&rt, &mut spool, 16, b"second")?;
    expect_empty(&rt, &spool, 0)?;
    expect_empty(&rt, &spool, 15)
}

#[test]
fn none_past_256(rt: HostRuntime) -> Result<(), Fail> {
    let mut left = vec![in rt.alloc(); 255u8; 410_000]?;
    let mut right = vec![in rt.alloc(); 255u8; 410_000]?;
    let mut spool = Joined::new(
        PlaceSpool::new(left.as_mut_slice()),
        PlaceSpool::new(right.as_mut_slice()),
    );
    expect_places(&rt, &mut spool, 256)?;
    play_lengths(&rt, &mut spool, 199)?;
    play_lengths(&rt, &mut spool, 255)
}

#[test]
fn joined_of_joined(rt: HostRuntime) -> Result<(), Fail> {
    let mut memory = [255; 4100];
    let mut spool = Joined::new(
        Joined::new(Tray::new(), PlaceSpool::new(&mut memory)),
        Joined::new(PlaceSpool::new(&mut []), Tray::new()),
    );
    expect_places(&rt, &mut spool, 34)?;
    play_lengths(&rt, &mut spool, 17)?;
    play_lengths(&rt, &mut spool, 18)?;
    expect_kept(&rt, &mut spool, 33, b"last")?;
    expect_empty(&rt, &spool, 32)
}
