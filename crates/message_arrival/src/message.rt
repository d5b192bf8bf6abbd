// What comes of a message that is live.
ghost use Rattle.std.specs.Prelude.{◌≡◌};
ghost use Rattle.envelope.specs.Views.{view as fields_of};
ghost use Rattle.message_arrival.specs.Messages.{message_taken};
ghost use Rattle.intake.specs.Steps.{taken};

use arrival_checks::answer::Arrived;
use arrival_checks::fault::ArrivalFault;
use arrival_checks::key::or_no_row;
use arrival_checks::ways::message_ways;
use envelope::parts::{Envelope, Parts};
use intake::taking::{answer_before, take_new};
use ledger::table::Ledger;
use message_rows::message::{MessageKey, MessageRow};
use relay::relay::Relay;
use routing::row::RouteRow;
use spool::Spool;

#[tactic(auto, unfolding(crate::specs::Messages::message_taken))]
pub fn take_message<S: Spool>(
    relay: &mut Relay<S>,
    neighbour: u8,
    parts: Parts<'_>,
    rec: &[u8],
    routes: &[RouteRow],
    messages: &mut Ledger<MessageRow>,
) -> Result<Arrived, ArrivalFault>
    ensures outcome { taken result relay.new messages.new.rows.now ≡ message_taken relay.old neighbour (fields_of parts.entry) rec.now routes.now messages.old.rows.now }
    ensures lender { messages.new.rows.ghost_name ≡ messages.old.rows.ghost_name }
{
    let key = or_no_row(MessageKey::new(parts.fr.bytes, parts.on.bytes))?;
    if let Some(answer) = answer_before(messages, relay.time, &key, parts) {
        return answer;
    }
    let ways = message_ways(routes, neighbour, parts)?;
    take_new(relay, messages, key, Envelope::Message(parts), ways, rec)
}
