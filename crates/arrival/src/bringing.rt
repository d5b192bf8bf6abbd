// What comes of an envelope that a neighbour brings and may send, whatever the kind of connection.
ghost use Rattle.std.specs.Prelude.{◌≡◌};
ghost use Rattle.envelope.specs.Views.{held as whole_of};
ghost use Rattle.arrival.specs.Arrivals.{outcome, brought};

use arrival_checks::answer::Arrived;
use arrival_checks::fault::ArrivalFault;
use envelope::parts::Envelope;
use ledger::table::Ledger;
use message_arrival::message::take_message;
use message_rows::message::MessageRow;
use relay::relay::Relay;
use routing::row::RouteRow;
use spool::Spool;
use status_arrival::status::take_status;
use status_rows::status::StatusRow;

// `rec` is the record that the envelope was read from: it is what is stored. Neighbour, record and routes stay three parameters:
// each function below looks at one or two of them, and a struct would be taken apart at once. So do the two ledgers: a struct of
// both was tried, and asked more of a caller who has each of them lent.
pub fn bring<S: Spool>(
    relay: &mut Relay<S>,
    neighbour: u8,
    envelope: Envelope<'_>,
    rec: &[u8],
    routes: &[RouteRow],
    messages: &mut Ledger<MessageRow>,
    statuses: &mut Ledger<StatusRow>,
) -> Result<Arrived, ArrivalFault>
    ensures outcome { outcome result relay.new messages.new.rows.now statuses.new.rows.now ≡ brought relay.old neighbour (whole_of envelope.entry) rec.now routes.now messages.old.rows.now statuses.old.rows.now }
    ensures messages_lender { messages.new.rows.ghost_name ≡ messages.old.rows.ghost_name }
    ensures statuses_lender { statuses.new.rows.ghost_name ≡ statuses.old.rows.ghost_name }
{
    if !envelope.is_live(relay.time) {
        return Err(ArrivalFault::NotLive);
    }
    match envelope {
        Envelope::Message(parts) => take_message(relay, neighbour, parts, rec, routes, messages),
        Envelope::Status(code, parts) => {
            take_status(relay, neighbour, code, parts, rec, routes, statuses)
        }
    }
}
