// An entry of the log of a run.
ghost use Rattle.std.specs.Prelude.{◌≡◌, min, List, [], ◌∷◌, ◌++◌};
ghost use Rattle.player.specs.Answers.{answer_of};
ghost use Rattle.player.specs.Steps.{world, after};
ghost use Rattle.player.specs.Runs.{Event, account, Agrees};
ghost use Rattle.playing.specs.Logs.{room_of, front_of, event_of};
ghost use Rattle.playing.specs.Plays.{entered};

use message_rows::message::MessageRow;
use player::call::Call;
use player::player::Player;
use player::step::step;
use player::told::Told;
use spool::Spool;
use status_rows::status::StatusRow;

// No record is longer, and so no call needs a longer buffer.
pub const PAGE: usize = 2048;

// What a call brought and gave back: a record that it gave stands at the front of the page, an array, since nothing here
// allocates.
#[derive(Clone, Copy)]
pub struct Entry<'a> {
    pub call: Call<'a>,
    pub told: Told,
    pub page: [u8; 2048],
}

// The length of the buffer that a call brings.
fn room_of(call: Call<'_>) -> usize
    ensures { result ≡ room_of call.entry }
{
    match call {
        Call::Read { room, .. } => room,
        Call::Collect { room, .. } => room,
        Call::Notice { room, .. } => room,
        _ => 0,
    }
}

// How much of its page a call uses.
fn front_of(call: Call<'_>) -> usize
    ensures { result ≡ front_of call.entry }
{
    room_of(call).min(PAGE)
}

// Makes one call with the front of its page as the buffer, and enters it.
pub(crate) fn enter<'a, S: Spool>(
    player: &mut Player<S>,
    messages: &mut [MessageRow],
    statuses: &mut [StatusRow],
    call: Call<'a>,
    entry: &mut Entry<'a>,
)
    ensures outcome { after (answer_of entry.new.told) (world player.new.relay player.new.connections.slots messages.new statuses.new) entry.new.page ≡ entered (world player.old.relay player.old.connections.slots messages.old statuses.old) call.entry entry.old.page }
    ensures brought { entry.new.call ≡ call.entry }
    ensures account_goes_on { (log : List Event) → Agrees (account log) (world player.old.relay player.old.connections.slots messages.old statuses.old) → Agrees (account (log ++ (event_of entry.new ∷ []))) (world player.new.relay player.new.connections.slots messages.new statuses.new) }
{
    let room = front_of(call);
    entry.call = call;
    entry.told = step(player, messages, statuses, call, &mut entry.page[..room]);
}
