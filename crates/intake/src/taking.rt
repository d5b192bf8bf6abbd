// Taking an envelope in: a row of its ledger, and the lowest free place.
ghost use Rattle.std.specs.Prelude.{◌≡◌};
ghost use Rattle.ledger.specs.Searches.{found, place_for, row_at};
ghost use Rattle.ledger.specs.Changes.{or_refused};
ghost use Rattle.envelope.specs.Views.{held, view};
ghost use Rattle.intake.specs.TakingIn.{free_place, room_for, answer_for, taking_in, answer_before, taken_as};
ghost use Rattle.intake.specs.Steps.{taken};

use arrival_checks::answer::Arrived;
use arrival_checks::fault::ArrivalFault;
use arrival_checks::repeat::{answer_again, kept_of};
use arrival_checks::ways::Ways;
use envelope::parts::{Envelope, Parts};
use envelope_rows::row::EnvelopeRow;
use ledger::fault::LedgerFault;
use ledger::row::Row;
use ledger::table::Ledger;
use relay::about::about;
use relay::relay::Relay;
use routing::row::Way;
use spool::Spool;
use standing::standing::About;

// The lowest free place of those that the spool has.
fn free_place<S: Spool>(relay: &Relay<S>) -> Option<usize>
    ensures { result ≡ free_place relay.now }
{
    relay.table.lowest_free(relay.spool.count())
}

// Whether the ledger has a row for this key.
fn check_row<R: Row>(ledger: &Ledger<R>, time: u64, key: &R::Key) -> Result<usize, LedgerFault>
    ensures { result ≡ or_refused (place_for R.Row.kind time key.now ledger.now.rows.now) }
{
    ledger.place_for(time, key).ok_or(LedgerFault::NoRow)
}

// The place for an envelope with this key: first a row of its ledger is asked for, then a place.
fn check_room<S: Spool, R: Row>(
    relay: &Relay<S>,
    ledger: &Ledger<R>,
    key: &R::Key,
) -> Result<usize, ArrivalFault>
    ensures { result ≡ room_for R.Row.kind relay.now key.now ledger.now.rows.now }
{
    check_row(ledger, relay.time as u64, key)?;
    free_place(relay).ok_or(ArrivalFault::NoPlace)
}

fn answer_for(on: Way, place: usize) -> Arrived
    ensures { result ≡ answer_for on place }
{
    match on {
        Way::Local => Arrived::Entered { place },
        Way::Neighbour(_) => Arrived::Waiting { place },
    }
}

// Stores the record in the lowest free place and adds its row; where there is no row or no place, nothing changes.
pub fn take_in<S: Spool, R: Row>(
    relay: &mut Relay<S>,
    ledger: &mut Ledger<R>,
    row: R,
    on: Way,
    about: About,
    rec: &[u8],
) -> Result<Arrived, ArrivalFault>
    ensures outcome { taken result relay.new ledger.new.rows.now ≡ taking_in R.Row.kind relay.old row on about rec.now ledger.old.rows.now }
    ensures lender { ledger.new.rows.ghost_name ≡ ledger.old.rows.ghost_name }
{
    let place = check_room(relay, ledger, &row.key())?;
    ledger.add(relay.time as u64, row)?;
    relay.settle(place, on, about, rec);
    Ok(answer_for(on, place))
}

// What is answered to an envelope that came before: a live row of its ledger has its key.
pub fn answer_before<R: EnvelopeRow>(
    ledger: &Ledger<R>,
    time: u32,
    key: &R::Key,
    parts: Parts<'_>,
) -> Option<Result<Arrived, ArrivalFault>>
    ensures { result ≡ answer_before (row_at (found R.Row.kind time key.now ledger.now.rows.now) ledger.now.rows.now) R.keeps (view parts.entry) }
{
    let row = ledger.find_row(time as u64, key)?;
    Some(answer_again(row.kept(), parts))
}

// Takes in an envelope that did not come before, by a row with its key.
pub fn take_new<S: Spool, R: EnvelopeRow>(
    relay: &mut Relay<S>,
    ledger: &mut Ledger<R>,
    key: R::Key,
    envelope: Envelope<'_>,
    ways: Ways,
    rec: &[u8],
) -> Result<Arrived, ArrivalFault>
    ensures outcome { taken result relay.new ledger.new.rows.now ≡ taken_as R.Row.kind R.made relay.old key (held envelope.entry) ways rec.now ledger.old.rows.now }
    ensures lender { ledger.new.rows.ghost_name ≡ ledger.old.rows.ghost_name }
{
    let row = R::of(key, kept_of(envelope.parts(), ways.on));
    take_in(relay, ledger, row, ways.on, about(envelope, ways.back), rec)
}
