// What a call of the relay brings.
use client_rows::white_list::WhiteListRow;
use delivery::outcome::Outcome;
use ledger::table::Ledger;
use routing::row::RouteRow;

// A connection is named by a number of the host's own. `room` is the length of the buffer that is brought.
#[derive(Clone, Copy)]
pub enum Call<'a> {
    Admit {
        clock: u32,
        connection: usize,
        fingerprint: [u8; 32],
        clients: &'a Ledger<'a, WhiteListRow>,
    },
    Arrive {
        clock: u32,
        connection: usize,
        rec: &'a [u8],
        routes: &'a [RouteRow],
    },
    Close {
        connection: usize,
    },
    HandOut {
        clock: u32,
    },
    Read {
        clock: u32,
        place: usize,
        number: u32,
        room: usize,
    },
    Answer {
        clock: u32,
        place: usize,
        number: u32,
        outcome: Outcome,
    },
    Sweep {
        clock: u32,
    },
    Collect {
        clock: u32,
        room: usize,
    },
    Notice {
        clock: u32,
        room: usize,
    },
}
