// What comes of a status that is live.
ghost use Rattle.std.specs.Prelude.{◌≡◌};
ghost use Rattle.envelope.specs.Views.{view as fields_of};
ghost use Rattle.status_arrival.specs.Statuses.{is_unwanted, wanted_taken, status_taken};
ghost use Rattle.intake.specs.Steps.{taken};

use arrival_checks::answer::Arrived;
use arrival_checks::fault::ArrivalFault;
use arrival_checks::key::or_no_row;
use arrival_checks::ways::status_ways;
use envelope::parts::{Envelope, Parts};
use intake::taking::{answer_before, take_new};
use ledger::table::Ledger;
use relay::relay::Relay;
use routing::row::RouteRow;
use spool::Spool;
use status_rows::status::{StatusKey, StatusRow};

fn take_wanted<S: Spool>(
    relay: &mut Relay<S>,
    neighbour: u8,
    code: u16,
    parts: Parts<'_>,
    rec: &[u8],
    routes: &[RouteRow],
    statuses: &mut Ledger<StatusRow>,
) -> Result<Arrived, ArrivalFault>
    ensures outcome { taken result relay.new statuses.new.rows.now ≡ wanted_taken relay.old neighbour code (fields_of parts.entry) rec.now routes.now statuses.old.rows.now }
    ensures lender { statuses.new.rows.ghost_name ≡ statuses.old.rows.ghost_name }
{
    let key = or_no_row(StatusKey::new(parts.fr.bytes, parts.ad.bytes, parts.on.bytes, code))?;
    if let Some(answer) = answer_before(statuses, relay.time, &key, parts) {
        return answer;
    }
    let ways = status_ways(routes, neighbour, parts)?;
    take_new(
        relay,
        statuses,
        key,
        Envelope::Status(code, parts),
        ways,
        rec,
    )
}

// A receipt that nobody asked for.
fn is_unwanted(code: u16, parts: Parts<'_>) -> bool
    ensures { result ≡ is_unwanted code (fields_of parts.entry) }
{
    100 <= code && code <= 199 && parts.ar == 0
}

#[tactic(auto, unfolding(crate::specs::Statuses::status_taken))]
pub fn take_status<S: Spool>(
    relay: &mut Relay<S>,
    neighbour: u8,
    code: u16,
    parts: Parts<'_>,
    rec: &[u8],
    routes: &[RouteRow],
    statuses: &mut Ledger<StatusRow>,
) -> Result<Arrived, ArrivalFault>
    ensures outcome { taken result relay.new statuses.new.rows.now ≡ status_taken relay.old neighbour code (fields_of parts.entry) rec.now routes.now statuses.old.rows.now }
    ensures lender { statuses.new.rows.ghost_name ≡ statuses.old.rows.ghost_name }
{
    if is_unwanted(code, parts) {
        return Ok(Arrived::Unwanted);
    }
    take_wanted(relay, neighbour, code, parts, rec, routes, statuses)
}
