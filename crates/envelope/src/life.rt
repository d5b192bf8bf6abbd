// How long an envelope is live.
ghost use Rattle.std.specs.Prelude.{◌≡◌};
ghost use Rattle.envelope.specs.Views.{held};
ghost use Rattle.envelope.specs.Life.{end_of_message, end_of_status, end_of, live_at};

use crate::parts::Envelope;

// How many seconds a status is kept after its timeout: seven days.
const STATUS_LIFE: u64 = 604_800;

// The second at which a message expires: TO seconds before TODT.
pub fn end_of_message(todt: u32, to: u16) -> u64
    ensures { result ≡ end_of_message todt to }
{
    (todt as u64).saturating_sub(to as u64)
}

// The second at which a status has been kept long enough.
pub fn end_of_status(todt: u32) -> u64
    ensures { result ≡ end_of_status todt }
{
    todt as u64 + STATUS_LIFE
}

impl Envelope<'_> {
    // The second at which the envelope stops being live: a message expires, a status has been kept long enough.
    pub fn end(self) -> u64
        ensures { result ≡ end_of (held self.entry) }
    {
        match self {
            Envelope::Message(parts) => end_of_message(parts.todt, parts.to),
            Envelope::Status(_, parts) => end_of_status(parts.todt),
        }
    }

    // Live before that second.
    pub fn is_live(self, time: u32) -> bool
        ensures { result ≡ live_at (held self.entry) time }
    {
        (time as u64) < self.end()
    }
}
