// The choice of a way: the best row of a table that fits.
ghost use Rattle.std.specs.Prelude.{◌≡◌};
ghost use Rattle.routing.specs.Choice.{best_row, way_at, chosen_way};
ghost use Rattle.std.specs.Option.{option_map};
ghost use Rattle.routing.specs.Ranked.{seen, better_after};
ghost use Rattle.routing.specs.Best.{WhereChosen, WhereNone, WhereRefused, OfFitting, OfBest, NoneFits, IsRefused};

use crate::fit::Query;
use crate::row::{RouteRow, Way};
use text::fault::{TextFault, check_address, check_dataflow};

// A row that fits. Its rank goes with it, so that it is worked out once and not for each row that it is compared with.
#[derive(Clone, Copy)]
struct Ranked<'a> {
    rank: usize,
    row: &'a RouteRow,
}

// What was found above a row, unless the row fits and ranks higher.
fn better_of<'a>(
    found: Option<Ranked<'a>>,
    row: &'a RouteRow,
    query: Query<'_>,
) -> Option<Ranked<'a>>
    ensures { option_map seen result ≡ better_after query.entry.target.now query.entry.dataflow.now (option_map seen found.entry) row.now }
{
    if !row.fits(query) {
        return found;
    }
    let rank = row.rank();
    match found {
        Some(upper) if upper.rank >= rank => found,
        _ => Some(Ranked { rank, row }),
    }
}

// The way of the best row that fits: of the uppermost of those that rank highest.
fn best_way(rows: &[RouteRow], query: Query<'_>) -> Option<Way>
    ensures { result ≡ way_at rows.now (best_row query.entry.target.now query.entry.dataflow.now rows.now) }
{
    rows.iter()
        .fold(None, |found, row| better_of(found, row, query))
        .map(|best| best.row.way)
}

// That way, where the texts are lawful.
fn checked_way(rows: &[RouteRow], query: Query<'_>) -> Result<Option<Way>, TextFault>
    ensures { result ≡ chosen_way rows.now query.entry.target.now query.entry.dataflow.now }
{
    check_address(query.target)?;
    check_dataflow(query.dataflow)?;
    Ok(best_way(rows, query))
}

// The way that an envelope of this dataflow goes to reach the target: that of the best row that fits, or none where none fits.
pub fn choose(rows: &[RouteRow], target: &[u8], dataflow: &[u8]) -> Result<Option<Way>, TextFault>
    ensures value { result ≡ chosen_way rows.now target.now dataflow.now }
    ensures fits { WhereChosen result (OfFitting rows.now target.now dataflow.now) }
    ensures best { WhereChosen result (OfBest rows.now target.now dataflow.now) }
    ensures none { WhereNone result (NoneFits rows.now target.now dataflow.now) }
    ensures refused { WhereRefused result (IsRefused target.now dataflow.now) }
{
    checked_way(rows, Query { target, dataflow })
}
