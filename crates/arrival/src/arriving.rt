// An envelope arrives on an admitted connection.
ghost use Rattle.std.specs.Prelude.{◌≡◌};
ghost use Rattle.envelope.specs.Results.{viewed};
ghost use Rattle.envelope.specs.Views.{held as whole_of};
ghost use Rattle.relay.specs.States.{timed};
ghost use Rattle.connection.specs.Admissions.{may_send};
ghost use Rattle.arrival_checks.specs.Answers.{arrival_refusal};
ghost use Rattle.intake.specs.Promises.{ByPlace, StoredAt};
ghost use Rattle.arrival.specs.Arrivals.{outcome, originator_checked, arrival};

use crate::bringing::bring;
use arrival_checks::answer::Arrived;
use arrival_checks::fault::ArrivalFault;
use connection::admitted::Admitted;
use envelope::parts::Envelope;
use envelope_reading::reading::read;
use ledger::table::Ledger;
use message_rows::message::MessageRow;
use relay::relay::Relay;
use routing::row::RouteRow;
use spool::Spool;
use status_rows::status::StatusRow;

// An Endpoint brings only what comes from its own address; the class of the connection counts for nothing else.
fn check_originator(connection: &Admitted, envelope: Envelope<'_>) -> Result<(), ArrivalFault>
    ensures { result ≡ originator_checked (may_send connection.now) (whole_of envelope.entry) }
{
    if connection.may_send(envelope.parts().fr.bytes) {
        Ok(())
    } else {
        Err(ArrivalFault::Originator)
    }
}

// The clock is read first, whatever comes of the record.
fn receive<S: Spool>(
    relay: &mut Relay<S>,
    connection: &Admitted,
    clock: u32,
    rec: &[u8],
    routes: &[RouteRow],
    messages: &mut Ledger<MessageRow>,
    statuses: &mut Ledger<StatusRow>,
) -> Result<Arrived, ArrivalFault>
    ensures outcome { outcome (viewed (λ x. x) arrival_refusal result) relay.new messages.new.rows.now statuses.new.rows.now ≡ arrival relay.old (may_send connection.now) connection.now.neighbour clock rec.now routes.now messages.old.rows.now statuses.old.rows.now }
    ensures messages_lender { messages.new.rows.ghost_name ≡ messages.old.rows.ghost_name }
    ensures statuses_lender { statuses.new.rows.ghost_name ≡ statuses.old.rows.ghost_name }
{
    relay.tick(clock);
    let envelope = read(rec)?;
    check_originator(connection, envelope)?;
    bring(
        relay,
        connection.neighbour(),
        envelope,
        rec,
        routes,
        messages,
        statuses,
    )
}

// An envelope arrives: it is entered into the inbox or waits for a neighbour, in the lowest free place; or it came before, or
// nobody asked for it, or it is refused. Only the relay's time moves where it is not taken in.
pub fn arrive<S: Spool>(
    relay: &mut Relay<S>,
    connection: &Admitted,
    clock: u32,
    rec: &[u8],
    routes: &[RouteRow],
    messages: &mut Ledger<MessageRow>,
    statuses: &mut Ledger<StatusRow>,
) -> Result<Arrived, ArrivalFault>
    ensures answer { viewed (λ x. x) arrival_refusal result ≡ (arrival relay.old (may_send connection.now) connection.now.neighbour clock rec.now routes.now messages.old.rows.now statuses.old.rows.now).answer }
    ensures state { relay.new ≡ (arrival relay.old (may_send connection.now) connection.now.neighbour clock rec.now routes.now messages.old.rows.now statuses.old.rows.now).state }
    ensures messages { messages.new.rows.now ≡ (arrival relay.old (may_send connection.now) connection.now.neighbour clock rec.now routes.now messages.old.rows.now statuses.old.rows.now).messages }
    ensures statuses { statuses.new.rows.now ≡ (arrival relay.old (may_send connection.now) connection.now.neighbour clock rec.now routes.now messages.old.rows.now statuses.old.rows.now).statuses }
    ensures messages_lender { messages.new.rows.ghost_name ≡ messages.old.rows.ghost_name }
    ensures statuses_lender { statuses.new.rows.ghost_name ≡ statuses.old.rows.ghost_name }
    ensures not_taken_in_moves_only_the_time { ByPlace result (λ _. Unit {0}) ((relay.new ≡ timed relay.old clock) × (messages.new.rows.now ≡ messages.old.rows.now) × (statuses.new.rows.now ≡ statuses.old.rows.now)) }
    ensures taken_in_is_stored { ByPlace result (StoredAt rec.now relay.old relay.new) (Unit {0}) }
{
    receive(relay, connection, clock, rec, routes, messages, statuses)
}
