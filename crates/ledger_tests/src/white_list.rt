// White-list rows.
use crate::telling::{tell, tell_place};
use client_rows::client::{ENDPOINT, NODE};
use client_rows::white_list::WhiteListRow;
use ledger::row::Row;
use ledger::table::Ledger;
use std::io;

fn client(neighbour: u8, class: u8, address: Option<&[u8]>) -> WhiteListRow {
    match WhiteListRow::new([65; 32], neighbour, class, address, 1_000) {
        Some(row) => row,
        None => WhiteListRow::freed(),
    }
}

fn play_bounds(rt: &HostRuntime) -> io::Result<()> {
    tell(
        rt,
        "filled with neighbour 254",
        client(254, NODE, None).is_filled(),
    )?;
    tell(
        rt,
        "filled with neighbour 255",
        client(255, NODE, None).is_filled(),
    )?;
    tell(rt, "filled with class 0", client(1, 0, None).is_filled())?;
    tell(rt, "filled with class 3", client(1, 3, None).is_filled())?;
    tell(
        rt,
        "an Endpoint filled with an address",
        client(1, ENDPOINT, Some(b"berth")).is_filled(),
    )?;
    tell(
        rt,
        "an Endpoint filled without one",
        client(1, ENDPOINT, None).is_filled(),
    )?;
    tell(
        rt,
        "an Endpoint filled with no lawful one",
        client(1, ENDPOINT, Some(b"berth:")).is_filled(),
    )?;
    tell(
        rt,
        "a Node filled with no lawful one",
        client(1, NODE, Some(b"berth:")).is_filled(),
    )
}

// Byte by byte: A and a differ, as does the last byte alone.
fn play_keys(rt: &HostRuntime) -> io::Result<()> {
    let mut rows = [client(1, ENDPOINT, Some(b"berth")); 1];
    let ledger = Ledger::new(&mut rows);
    let mut other = [65; 32];
    tell_place(rt, "found by its fingerprint", ledger.find(999, &other))?;
    tell_place(
        rt,
        "found at the certificate's end",
        ledger.find(1_000, &other),
    )?;
    other[31] = 97;
    tell_place(
        rt,
        "found with the last byte in another letter case",
        ledger.find(999, &other),
    )
}

pub(crate) fn play(rt: &HostRuntime) -> io::Result<()> {
    play_bounds(rt)?;
    play_keys(rt)
}
