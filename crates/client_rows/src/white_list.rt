// White-list rows: which clients may connect, and until when.
ghost use Rattle.std.specs.Prelude.{◌≡◌, IfSome, refl};
ghost use Rattle.client_rows.specs.WhiteLists.{white_list_kind, white_list_row, WhiteListParts};
ghost use Rattle.std.specs.Str.{bytes_eq};
ghost use Rattle.std.proofs.lemmas.Slice.Eq.{bytes_eq-Decides};
ghost use Rattle.ledger.proofs.Equivalences.{by_image};

use crate::client::{Client, nameless};
use ledger::row::Row;

// A client's row: the fingerprint of its certificate, the client, and the second at which the certificate ends. As with the
// other rows, `used` is a flag of its own in memory that anybody may fill.
#[derive(Clone, Copy)]
pub struct WhiteListRow {
    pub used: bool,
    pub fingerprint: [u8; 32],
    pub client: Client,
    pub until: u32,
}

fn row_of(
    fingerprint: [u8; 32],
    neighbour: u8,
    class: u8,
    address: Option<&[u8]>,
    until: u32,
) -> Option<WhiteListRow>
    ensures { result ≡ white_list_row fingerprint neighbour class address.entry until }
{
    let client = Client::new(neighbour, class, address)?;
    Some(WhiteListRow {
        used: true,
        fingerprint,
        client,
        until,
    })
}

impl WhiteListRow {
    // A row in use; none where the address is longer than a row can keep.
    pub fn new(
        fingerprint: [u8; 32],
        neighbour: u8,
        class: u8,
        address: Option<&[u8]>,
        until: u32,
    ) -> Option<WhiteListRow>
        ensures value { result ≡ white_list_row fingerprint neighbour class address.entry until }
        ensures parts { IfSome result (WhiteListParts neighbour class address.entry) }
    {
        row_of(fingerprint, neighbour, class, address, until)
    }
}

impl Row for WhiteListRow {
    type Key = [u8; 32];

    ghost kind = { white_list_kind };

    ghost alike = { by_image bytes_eq (λ f. f) bytes_eq-Decides };

    ghost empty = { refl };

    fn is_filled(&self) -> bool {
        self.used && self.client.is_lawful()
    }

    fn end(&self) -> u64 {
        self.until as u64
    }

    fn key(&self) -> [u8; 32] {
        self.fingerprint
    }

    fn has_key(&self, key: &[u8; 32]) -> bool {
        key[..] == self.fingerprint[..]
    }

    fn freed() -> WhiteListRow {
        WhiteListRow {
            used: false,
            fingerprint: [0; 32],
            client: nameless(0, 0),
            until: 0,
        }
    }
}
