// One call.
ghost use Rattle.std.specs.Prelude.{◌≡◌, ℕ, List, [], ◌∷◌, ◌++◌};
ghost use Rattle.message_rows.specs.declared.message.MessageRow.{MessageRow};
ghost use Rattle.status_rows.specs.declared.status.StatusRow.{StatusRow};
ghost use Rattle.player.specs.Answers.{answer_of};
ghost use Rattle.account.specs.Laws.{Laws};
ghost use Rattle.deeds.specs.Ranges.{InRange};
ghost use Rattle.player.specs.Runs.{Event, event, account, Agrees, Brings};
ghost use Rattle.player.specs.Steps.{world, with_slots, after, admitted, arrived, closed, stepped};

use crate::call::Call;
use crate::player::Player;
use crate::told::{Told, admission_of};
use arrival::arriving::arrive;
use client_rows::white_list::WhiteListRow;
use connection::admission::{NotAdmitted, Open};
use delivery::answering::answer;
use delivery::handing_out::hand_out;
use delivery::reading::read_out;
use ledger::table::Ledger;
use message_rows::message::MessageRow;
use office::oldest::{collect, notice};
use routing::row::RouteRow;
use spool::Spool;
use status_rows::status::StatusRow;
use sweeping::sweep::sweep;

// Admits a connection under a number that is free.
fn admit<S: Spool>(
    player: &mut Player<S>,
    clock: u32,
    connection: usize,
    fingerprint: [u8; 32],
    clients: &Ledger<WhiteListRow>,
) -> Told
    ensures { (ms : List MessageRow) (ss : List StatusRow) (buf : List ℕ) → after (answer_of result) (world player.new.relay player.new.connections.slots ms ss) buf ≡ admitted (world player.old.relay player.old.connections.slots ms ss) clock connection fingerprint clients.now.rows.now buf }
{
    if !player.connections.is_free(connection) {
        return Told::NoCall;
    }
    player.relay.tick(clock);
    match Open::new(fingerprint).admit(clients, player.relay.time as u64) {
        Ok(client) => {
            let told = admission_of(&client);
            player.connections.keep(connection, client);
            Told::Admitted(Ok(told))
        }
        Err(refusal) => {
            let NotAdmitted { connection, fault } = refusal;
            connection.close();
            Told::Admitted(Err(fault))
        }
    }
}

// Brings a record on the connection that is named.
fn bring_on<S: Spool>(
    player: &mut Player<S>,
    messages: &mut [MessageRow],
    statuses: &mut [StatusRow],
    clock: u32,
    connection: usize,
    rec: &[u8],
    routes: &[RouteRow],
) -> Told
    ensures { (buf : List ℕ) → after (answer_of result) (world player.new.relay player.new.connections.slots messages.new statuses.new) buf ≡ arrived (world player.old.relay player.old.connections.slots messages.old statuses.old) clock connection rec.now routes.now buf }
{
    let mut messages = Ledger::new(messages);
    let mut statuses = Ledger::new(statuses);
    match player.connections.at(connection) {
        Some(connection) => Told::Arrived(arrive(
            &mut player.relay,
            connection,
            clock,
            rec,
            routes,
            &mut messages,
            &mut statuses,
        )),
        None => Told::NoCall,
    }
}

// The same; the time in what is brought is of 32 bits, since it is bytes.
fn bring<S: Spool>(
    player: &mut Player<S>,
    messages: &mut [MessageRow],
    statuses: &mut [StatusRow],
    clock: u32,
    connection: usize,
    rec: &[u8],
    routes: &[RouteRow],
) -> Told
    ensures outcome { (buf : List ℕ) → after (answer_of result) (world player.new.relay player.new.connections.slots messages.new statuses.new) buf ≡ arrived (world player.old.relay player.old.connections.slots messages.old statuses.old) clock connection rec.now routes.now buf }
    ensures in_range { InRange rec.now }
{
    bring_on(player, messages, statuses, clock, connection, rec, routes)
}

fn close<S: Spool>(player: &mut Player<S>, connection: usize) -> Told
    ensures { (ms : List MessageRow) (ss : List StatusRow) (buf : List ℕ) → after (answer_of result) (world player.new.relay player.new.connections.slots ms ss) buf ≡ closed (world player.old.relay player.old.connections.slots ms ss) connection buf }
{
    match player.connections.at(connection) {
        Some(_) => {
            player.connections.close(connection);
            Told::Closed
        }
        None => Told::NoCall,
    }
}

// Makes one call.
fn make<S: Spool>(
    player: &mut Player<S>,
    messages: &mut [MessageRow],
    statuses: &mut [StatusRow],
    call: Call<'_>,
    buf: &mut [u8],
) -> Told
    ensures outcome { after (answer_of result) (world player.new.relay player.new.connections.slots messages.new statuses.new) buf.new ≡ stepped (world player.old.relay player.old.connections.slots messages.old statuses.old) call.entry buf.old }
    ensures brings { Brings call.entry }
{
    match call {
        Call::Admit {
            clock,
            connection,
            fingerprint,
            clients,
        } => admit(player, clock, connection, fingerprint, clients),
        Call::Arrive {
            clock,
            connection,
            rec,
            routes,
        } => bring(player, messages, statuses, clock, connection, rec, routes),
        Call::Close { connection } => close(player, connection),
        Call::HandOut { clock } => Told::HandedOut(hand_out(&mut player.relay, clock)),
        Call::Read {
            clock,
            place,
            number,
            ..
        } => Told::Read(read_out(&mut player.relay, clock, place, number, buf)),
        Call::Answer {
            clock,
            place,
            number,
            outcome,
        } => Told::Answered(answer(&mut player.relay, clock, place, number, outcome)),
        Call::Sweep { clock } => Told::Swept(sweep(&mut player.relay, clock)),
        Call::Collect { clock, .. } => Told::Collected(collect(&mut player.relay, clock, buf)),
        Call::Notice { clock, .. } => Told::Noticed(notice(&mut player.relay, clock, buf)),
    }
}

// Makes one call. Whatever was called before, and whatever this call brings: where the relay and its ledger of messages are
// as the account of a log has it, they are afterwards as the account of the log with this call has it, and so the laws hold.
pub fn step<S: Spool>(
    player: &mut Player<S>,
    messages: &mut [MessageRow],
    statuses: &mut [StatusRow],
    call: Call<'_>,
    buf: &mut [u8],
) -> Told
    ensures outcome { after (answer_of result) (world player.new.relay player.new.connections.slots messages.new statuses.new) buf.new ≡ stepped (world player.old.relay player.old.connections.slots messages.old statuses.old) call.entry buf.old }
    ensures account_goes_on { (log : List Event) → Agrees (account log) (world player.old.relay player.old.connections.slots messages.old statuses.old) → Agrees (account (log ++ (event call.entry (answer_of result) buf.new ∷ []))) (world player.new.relay player.new.connections.slots messages.new statuses.new) }
    ensures no_request_lost_or_doubled { (log : List Event) → Agrees (account log) (world player.old.relay player.old.connections.slots messages.old statuses.old) → Laws (account (log ++ (event call.entry (answer_of result) buf.new ∷ []))) player.new.relay }
{
    make(player, messages, statuses, call, buf)
}
