// What a row that remembers an envelope is made of.
ghost use Rattle.std.specs.Prelude.{◌≡◌};
ghost use Rattle.envelope_rows.specs.declared.kept.Kept.{Kept};

use crate::kept::Kept;
use ledger::row::Row;

// A row that remembers an envelope: in use with a key, it keeps what is kept of the envelope.
pub trait EnvelopeRow: Row {
    ghost made: { Self.Key → Kept → Self };

    ghost keeps: { Self → Kept };

    // The row in use with this key.
    fn of(key: Self::Key, kept: Kept) -> Self
        ensures { result ≡ made key kept };

    fn kept(&self) -> Kept
        ensures { result ≡ keeps self.now };
}
