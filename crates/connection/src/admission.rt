// Open connections, and how the white list admits them.
ghost use Rattle.std.specs.Prelude.{◌≡◌, MatchResult};
ghost use Rattle.ledger.specs.Searches.{found, row_at};
ghost use Rattle.client_rows.specs.WhiteLists.{white_list_kind};
ghost use Rattle.connection.specs.Admissions.{opened, admission, GivesBack};
ghost use Rattle.connection.specs.Listed.{ListedAs, Unlisted};

use crate::admitted::Admitted;
use crate::fault::AdmissionFault;
use client_rows::white_list::WhiteListRow;
use ledger::table::Ledger;

// A connection that has shown the fingerprint of its certificate, and is not admitted.
// It is neither copied nor let go: whoever has it brings it to admission or closes it.
pub struct Open {
    fingerprint: [u8; 32],
}

// The open connection comes back with the reason.
pub struct NotAdmitted {
    pub connection: Open,
    pub fault: AdmissionFault,
}

fn admitted_by_row(
    connection: Open,
    list: &Ledger<WhiteListRow>,
    time: u64,
) -> Result<Admitted, NotAdmitted>
    ensures answer { result ≡ admission connection time list.now.rows.now }
    ensures address { GivesBack (row_at (found white_list_kind time connection.fingerprint list.now.rows.now) list.now.rows.now) result }
{
    match list.find_row(time, &connection.fingerprint) {
        Some(row) => {
            connection.close();
            Ok(Admitted::new(&row.client))
        }
        None => Err(NotAdmitted {
            connection,
            fault: AdmissionFault::NoLiveRow,
        }),
    }
}

impl Open {
    // A connection that has shown this fingerprint.
    pub fn new(fingerprint: [u8; 32]) -> Open
        ensures { result ≡ opened fingerprint }
    {
        Open { fingerprint }
    }

    // Admits the connection by the first live row with its fingerprint.
    pub fn admit(self, list: &Ledger<WhiteListRow>, time: u64) -> Result<Admitted, NotAdmitted>
        ensures answer { result ≡ admission self time list.now.rows.now }
        ensures listed { MatchResult result (ListedAs self time list.now.rows.now) (λ _. Unlisted self time list.now.rows.now) }
    {
        admitted_by_row(self, list, time)
    }

    // Ends a connection that is not admitted. It gives nothing back, so there is nothing to promise: what counts is that
    // it takes the connection, which nobody can use afterwards.
    pub fn close(self) {
        let Open { fingerprint: _ } = self;
    }
}
