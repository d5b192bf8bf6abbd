use crate::edges::{expect_kept, expect_places, play_lengths};
use place_spool::PlaceSpool;
use spool::Spool;
use std::alloc::Global;
use std::process::Abort;
use std::test::*;

// A place spool over so many bytes has so many places, and zeros alone lie in its memory.
fn expect_places_in(
    rt: &impl Abort,
    heap: Global,
    bytes: usize,
    places: usize,
) -> Result<(), Fail> {
    let mut memory = vec![in heap; 255u8; bytes]?;
    let mut spool = PlaceSpool::new(memory.as_mut_slice());
    expect_places(rt, &mut spool, places)?;
    for byte in memory.iter() {
        assert_eq!(rt; *byte, 0);
    }
    Ok(())
}

#[test]
fn a_place_for_each_full_cell(rt: HostRuntime) -> Result<(), Fail> {
    expect_places_in(&rt, rt.alloc(), 0, 0)?;
    expect_places_in(&rt, rt.alloc(), 2049, 0)?;
    expect_places_in(&rt, rt.alloc(), 2050, 1)?;
    expect_places_in(&rt, rt.alloc(), 4099, 1)?;
    expect_places_in(&rt, rt.alloc(), 525_000, 256)
}

#[test]
fn lengths_of_a_place(rt: HostRuntime) -> Result<(), Fail> {
    let mut memory = vec![in rt.alloc(); 255u8; 525_000]?;
    let mut spool = PlaceSpool::new(memory.as_mut_slice());
    play_lengths(&rt, &mut spool, 0)?;
    play_lengths(&rt, &mut spool, 255)?;
    expect_kept(&rt, &mut spool, 1, b"one")
}

#[test]
fn the_layout_of_a_cell(rt: HostRuntime) -> Result<(), Fail> {
    let mut memory = [255; 4101];
    let mut spool = PlaceSpool::new(&mut memory);
    expect_kept(&rt, &mut spool, 1, &[9; 300])?;
    expect_kept(&rt, &mut spool, 1, b"ab")?;
    assert!(rt; memory[2050..2056] == [2, 0, b'a', b'b', 9, 9]);
    assert_eq!(rt; memory[2049], 0);
    assert_eq!(rt; memory[4100], 0);
    Ok(())
}
