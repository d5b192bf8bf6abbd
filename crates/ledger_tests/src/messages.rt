// Message rows.
use crate::telling::{tell, tell_added, tell_place};
use envelope_rows::kept::Kept;
use ledger::row::Row;
use ledger::table::Ledger;
use ledger::wiping::wipe;
use message_rows::message::MessageRow;
use std::io;

const NUMBER: &[u8] = b"A1b2C3d4E5f6G7h8I9j0";

// A row of a message from `fr` that expires 60 seconds before `todt`.
fn message(fr: &[u8], todt: u32) -> MessageRow {
    let kept = Kept {
        todt,
        to: 60,
        first: 100,
    };
    match MessageRow::new(fr, NUMBER, kept) {
        Some(row) => row,
        None => MessageRow::freed(),
    }
}

// Two rows, both live: a third key finds no place, an own key does, and so does a third once one has ended.
fn play_full(rt: &HostRuntime) -> io::Result<()> {
    let mut rows = [message(b"X", 1_000); 2];
    wipe(&mut rows);
    let mut ledger = Ledger::new(&mut rows);
    let (one, two, three) = (
        message(b"one", 1_000),
        message(b"two", 2_000),
        message(b"three", 3_000),
    );
    tell_added(rt, "the first is added", ledger.add(900, one))?;
    tell_added(rt, "the second is added", ledger.add(900, two))?;
    tell_added(
        rt,
        "the third is added to a full ledger",
        ledger.add(900, three),
    )?;
    tell_place(rt, "the first is still found", ledger.find(900, &one.key()))?;
    tell_added(rt, "the second is added again", ledger.add(900, two))?;
    tell_added(
        rt,
        "the third is added at the first one's end",
        ledger.add(940, three),
    )?;
    tell_place(
        rt,
        "the first is no longer found",
        ledger.find(900, &one.key()),
    )?;
    tell_place(rt, "the third is found", ledger.find(940, &three.key()))
}

fn play_end(rt: &HostRuntime) -> io::Result<()> {
    let row = message(b"AB:cd", 1_000);
    let mut rows = [row; 1];
    let ledger = Ledger::new(&mut rows);
    tell_place(
        rt,
        "found a second before the end",
        ledger.find(939, &row.key()),
    )?;
    tell_place(rt, "found at the end", ledger.find(940, &row.key()))
}

fn play_case(rt: &HostRuntime) -> io::Result<()> {
    let (row, alike) = (message(b"AB:cd", 1_000), message(b"ab:CD", 2_000));
    let mut rows = [MessageRow::freed(); 2];
    rows[1] = row;
    let mut ledger = Ledger::new(&mut rows);
    tell_place(
        rt,
        "found in another letter case",
        ledger.find(900, &alike.key()),
    )?;
    tell_added(rt, "added in another letter case", ledger.add(900, alike))?;
    tell(rt, "struck", ledger.strike(&row.key()))?;
    tell(rt, "struck again", ledger.strike(&row.key()))?;
    tell_place(rt, "found after striking", ledger.find(900, &row.key()))
}

fn play_nothing(rt: &HostRuntime) -> io::Result<()> {
    let row = message(b"one", 1_000);
    let mut rows = [row; 0];
    let mut ledger = Ledger::new(&mut rows);
    tell_place(rt, "found in no rows", ledger.find(900, &row.key()))?;
    tell_added(rt, "added to no rows", ledger.add(900, row))?;
    tell(rt, "struck in no rows", ledger.strike(&row.key()))
}

// TO may be TODT and no more; a row that is not filled is written where its key goes, and is not found.
fn play_bounds(rt: &HostRuntime) -> io::Result<()> {
    let (last, past) = (message(b"one", 60), message(b"one", 59));
    tell(rt, "filled with TO equal to TODT", last.is_filled())?;
    tell(rt, "filled with TO above TODT", past.is_filled())?;
    let mut rows = [message(b"one", 1_000); 1];
    let mut ledger = Ledger::new(&mut rows);
    tell_added(rt, "a row not filled is added", ledger.add(0, past))?;
    tell_place(rt, "and found", ledger.find(0, &past.key()))
}

pub(crate) fn play(rt: &HostRuntime) -> io::Result<()> {
    play_full(rt)?;
    play_end(rt)?;
    play_case(rt)?;
    play_nothing(rt)?;
    play_bounds(rt)
}
