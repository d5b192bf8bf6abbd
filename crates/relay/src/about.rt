// What the calls need to know of an envelope, apart from its bytes.
ghost use Rattle.std.specs.Prelude.{◌≡◌};
ghost use Rattle.envelope.specs.Views.{held, view};
ghost use Rattle.relay.specs.Abouts.{about_of, is_notified};

use envelope::parts::{Envelope, Parts};
use routing::row::Way;
use standing::standing::About;

// Whether somebody wants to hear of a double fault: there are contacts, and the verbosity asks at least for errors.
fn is_notified(parts: Parts<'_>) -> bool
    ensures { result ≡ is_notified (view parts.entry) }
{
    parts.ct.bytes.len() > 0 && parts.vb >= 1
}

// What is kept of an envelope whose reports go this way back.
pub fn about(envelope: Envelope<'_>, back: Way) -> About
    ensures { result ≡ about_of (held envelope.entry) back }
{
    let parts = envelope.parts();
    About {
        kind: envelope.kind(),
        end: envelope.end(),
        timeout: parts.to,
        receipt: parts.ar == 1,
        notify: is_notified(parts),
        back,
    }
}
