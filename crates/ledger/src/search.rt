// Looking for the first row of a sort.
ghost use Rattle.std.specs.Prelude.{◌≡◌, ◌<◌, length, IfSome, position};
ghost use Rattle.ledger.specs.Kinds.{live};
ghost use Rattle.ledger.specs.Searches.{live_with, filled_with, spare};

use crate::row::Row;

fn is_live<R: Row>(row: &R, time: u64) -> bool
    ensures { result ≡ live R.Row.kind time row.now }
{
    row.is_filled() && time < row.end()
}

// The first live row with that key.
pub(crate) fn find<R: Row>(rows: &[R], time: u64, key: &R::Key) -> Option<usize>
    ensures { result ≡ position (live_with R.Row.kind time key.now) rows.now }
{
    rows.iter()
        .position(|row| is_live(row, time) && row.has_key(key))
}

// The first filled row with that key.
pub(crate) fn find_entered<R: Row>(rows: &[R], key: &R::Key) -> Option<usize>
    ensures picks { result ≡ position (filled_with R.Row.kind key.now) rows.now }
    ensures within { IfSome result (λ i. i < length rows.now) }
{
    rows.iter()
        .position(|row| row.is_filled() && row.has_key(key))
}

// The first row that is not live.
pub(crate) fn find_spare<R: Row>(rows: &[R], time: u64) -> Option<usize>
    ensures picks { result ≡ position (spare R.Row.kind time) rows.now }
    ensures within { IfSome result (λ i. i < length rows.now) }
{
    rows.iter().position(|row| !is_live(row, time))
}
