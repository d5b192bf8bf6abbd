// Status rows.
use crate::telling::{tell, tell_added, tell_place};
use envelope_rows::kept::Kept;
use ledger::row::Row;
use ledger::table::Ledger;
use status_rows::status::StatusRow;
use std::io;

// A row of a status with that code, whose timeout is over as late as it can be.
fn status(ad: &[u8], code: u16) -> StatusRow {
    let kept = Kept {
        todt: 4_294_967_295,
        to: 600,
        first: 200,
    };
    match StatusRow::new(b"node:7", ad, b"A1b2C3d4E5f6G7h8I9j0", code, kept) {
        Some(row) => row,
        None => StatusRow::freed(),
    }
}

// The code and AD belong to the key, and the end passes 32 bits.
fn play_keys(rt: &HostRuntime) -> io::Result<()> {
    let (row, coded, sent) = (
        status(b"berth", 100),
        status(b"berth", 101),
        status(b"crane", 100),
    );
    let mut rows = [row, StatusRow::freed()];
    let mut ledger = Ledger::new(&mut rows);
    let end = row.end();
    println!(rt; "the status's row ends at {end}")?;
    tell_place(
        rt,
        "found a second before",
        ledger.find(4_295_572_094, &row.key()),
    )?;
    tell_place(
        rt,
        "found at its end",
        ledger.find(4_295_572_095, &row.key()),
    )?;
    tell_place(rt, "found with another code", ledger.find(0, &coded.key()))?;
    tell_place(rt, "found with another AD", ledger.find(0, &sent.key()))?;
    tell_added(rt, "added with another code", ledger.add(0, coded))?;
    tell_added(rt, "added with another AD", ledger.add(0, sent))
}

fn play_codes(rt: &HostRuntime) -> io::Result<()> {
    for code in [99, 100, 199, 200, 399, 400, 499, 500] {
        let filled = status(b"berth", code).is_filled();
        println!(rt; "filled with code {code}: {filled}")?;
    }
    let long = [b'a'; 65];
    tell(
        rt,
        "filled with an AD of 64 bytes",
        status(&long[0..64], 100).is_filled(),
    )?;
    tell(
        rt,
        "filled with an AD of 65 bytes",
        status(&long, 100).is_filled(),
    )
}

pub(crate) fn play(rt: &HostRuntime) -> io::Result<()> {
    play_keys(rt)?;
    play_codes(rt)
}
