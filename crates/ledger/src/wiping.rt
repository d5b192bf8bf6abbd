// Beginning with an empty ledger.
ghost use Rattle.std.specs.Prelude.{◌≡◌, length, replicate};
ghost use Rattle.ledger.specs.Promises.{NothingFound};

use crate::row::Row;

#[tactic(auto, using(crate::proofs::Wiped::all_same))]
fn free_all<R: Row>(rows: &mut [R])
    ensures { rows.new ≡ replicate (length rows.old) R.Row.kind.freed }
{
    // A closure, since the name of a function whose result is of a type parameter is not covered here.
    rows.fill_with(|| R::freed());
}

// Makes each row the freed row: none is filled then.
pub fn wipe<R: Row>(rows: &mut [R])
    ensures rows { rows.new ≡ replicate (length rows.old) R.Row.kind.freed }
    ensures empty { NothingFound R.Row.kind rows.new }
{
    free_all(rows);
}
