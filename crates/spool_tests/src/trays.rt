use crate::edges::{expect_empty, expect_kept, expect_places, play_lengths};
use spool::fault::SpoolFault;
use spool::uses::clear_all;
use std::test::*;
use tray::Tray;

#[test]
fn refusals_have_numbers(rt: HostRuntime) -> Result<(), Fail> {
    assert_eq!(rt; SpoolFault::NoPlace.number(), 505);
    assert_eq!(rt; SpoolFault::Unstorable.number(), 505);
    assert_eq!(rt; SpoolFault::ShortBuffer.number(), 502);
    Ok(())
}

#[test]
fn a_tray_has_sixteen_places(rt: HostRuntime) -> Result<(), Fail> {
    let mut tray = Tray::new();
    expect_places(&rt, &mut tray, 16)?;
    play_lengths(&rt, &mut tray, 0)?;
    play_lengths(&rt, &mut tray, 15)?;
    expect_kept(&rt, &mut tray, 3, b"three")?;
    expect_empty(&rt, &tray, 2)?;
    expect_empty(&rt, &tray, 4)?;
    clear_all(&mut tray);
    expect_empty(&rt, &tray, 3)
}
