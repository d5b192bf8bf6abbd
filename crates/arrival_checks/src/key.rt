// The key that an envelope has in its ledger.
ghost use Rattle.std.specs.Prelude.{◌≡◌};
ghost use Rattle.arrival_checks.specs.Keys.{or_no_row};

use crate::fault::ArrivalFault;
use ledger::fault::LedgerFault;

// No row keeps a text of more than 64 bytes; an envelope that was read has none.
pub fn or_no_row<K: Copy>(key: Option<K>) -> Result<K, ArrivalFault>
    ensures { result ≡ or_no_row key }
{
    key.ok_or(ArrivalFault::Ledger(LedgerFault::NoRow))
}
