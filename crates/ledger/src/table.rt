// A ledger over rows that the caller lends.
ghost use Rattle.std.specs.Prelude.{◌≡◌};
ghost use Rattle.std.specs.List.{slice_get};
ghost use Rattle.ledger.specs.Searches.{found, place_for, row_at};
ghost use Rattle.ledger.specs.Changes.{added, rows_after_adding, struck, rows_after_striking};
ghost use Rattle.ledger.specs.Promises.{FoundAlike, FoundAgain, OthersAsBefore};

use crate::fault::LedgerFault;
use crate::row::Row;
use crate::{places, search};

// A ledger is a table of rows in the caller's memory that remembers who was answered what, until when.
// A row is live while it is filled and its end is later than the time given; it stays in its place until it is
// written over or struck, so that an ended row costs nothing but its place.
// Each function that takes a ledger promises `lender`, since it could be given another slice in the place of its own, and
// no type says that it was not.
#[derive(Drop)]
pub struct Ledger<'a, R> {
    rows: &'a mut [R],
}

impl<'a, R: Row> Ledger<'a, R> {
    // The ledger of these rows, as they are.
    pub fn new(rows: &'a mut [R]) -> Ledger<'a, R>
        ensures rows { result.rows.now ≡ rows.old }
        ensures lender { result.rows.ghost_name ≡ rows.entry.ghost_name }
    {
        Ledger { rows }
    }

    // The place of the first live row with that key.
    pub fn find(&self, time: u64, key: &R::Key) -> Option<usize>
        ensures answer { result ≡ found R.Row.kind time key.now self.now.rows.now }
        ensures alike { FoundAlike R.Row.kind time key.now self.now.rows.now result }
    {
        search::find(self.rows, time, key)
    }

    // The row at a place.
    pub fn row_at(&self, i: usize) -> Option<R>
        ensures { result ≡ slice_get self.now.rows.now i }
    {
        places::row_at(self.rows, i)
    }

    // The first live row with that key.
    pub fn find_row(&self, time: u64, key: &R::Key) -> Option<R>
        ensures { result ≡ row_at (found R.Row.kind time key.now self.now.rows.now) self.now.rows.now }
    {
        let i = self.find(time, key)?;
        self.row_at(i)
    }

    // Where `add` would write a row with that key; none where it would refuse.
    pub fn place_for(&self, time: u64, key: &R::Key) -> Option<usize>
        ensures { result ≡ place_for R.Row.kind time key.now self.now.rows.now }
    {
        places::place_for(self.rows, time, key)
    }

    // Writes the row over the first filled row with its key, else over the first row not live.
    pub fn add(&mut self, time: u64, row: R) -> Result<usize, LedgerFault>
        ensures answer { result ≡ added R.Row.kind time row self.old.rows.now }
        ensures rows { self.new.rows.now ≡ rows_after_adding R.Row.kind time row self.old.rows.now }
        ensures lender { self.new.rows.ghost_name ≡ self.old.rows.ghost_name }
        ensures again { FoundAgain R.Row.kind row self.new.rows.now result }
        ensures others { OthersAsBefore R.Row.kind time (R.Row.kind.key row) self.old.rows.now self.new.rows.now }
    {
        places::add(self.rows, time, row)
    }

    // Frees the first filled row with that key, and says whether there was one.
    pub fn strike(&mut self, key: &R::Key) -> bool
        ensures answer { result ≡ struck R.Row.kind key.now self.old.rows.now }
        ensures rows { self.new.rows.now ≡ rows_after_striking R.Row.kind key.now self.old.rows.now }
        ensures lender { self.new.rows.ghost_name ≡ self.old.rows.ghost_name }
        ensures others { OthersAsBefore R.Row.kind 0 key.now self.old.rows.now self.new.rows.now }
    {
        places::strike(self.rows, key)
    }
}
