// Adding and striking in a slice of rows.
ghost use Rattle.std.specs.Prelude.{◌≡◌, ◌<◌, length, IfSome};
ghost use Rattle.std.specs.List.{slice_get};
ghost use Rattle.ledger.specs.Searches.{place_for};
ghost use Rattle.ledger.specs.Changes.{added, rows_after_adding, struck, rows_after_striking};

use crate::fault::LedgerFault;
use crate::row::Row;
use crate::search::{find_entered, find_spare};

#[tactic(auto, using(crate::proofs::Firsts::first_is))]
pub(crate) fn place_for<R: Row>(rows: &[R], time: u64, key: &R::Key) -> Option<usize>
    ensures picks { result ≡ place_for R.Row.kind time key.now rows.now }
    ensures within { IfSome result (λ i. i < length rows.now) }
{
    find_entered(rows, key).or_else(|| find_spare(rows, time))
}

pub(crate) fn add<R: Row>(rows: &mut [R], time: u64, row: R) -> Result<usize, LedgerFault>
    ensures answer { result ≡ added R.Row.kind time row rows.old }
    ensures rows { rows.new ≡ rows_after_adding R.Row.kind time row rows.old }
{
    let i = place_for(rows, time, &row.key()).ok_or(LedgerFault::NoRow)?;
    rows[i] = row;
    Ok(i)
}

#[tactic(auto, using(crate::proofs::Firsts::first_is))]
pub(crate) fn strike<R: Row>(rows: &mut [R], key: &R::Key) -> bool
    ensures answer { result ≡ struck R.Row.kind key.now rows.old }
    ensures rows { rows.new ≡ rows_after_striking R.Row.kind key.now rows.old }
{
    let Some(i) = find_entered(rows, key) else {
        return false;
    };
    rows[i] = R::freed();
    true
}

pub(crate) fn row_at<R: Row>(rows: &[R], i: usize) -> Option<R>
    ensures { result ≡ slice_get rows.now i }
{
    rows.get(i).copied()
}
