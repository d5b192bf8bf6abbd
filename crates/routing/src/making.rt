// Making a row of given texts.
ghost use Rattle.std.specs.Prelude.{◌≡◌};
ghost use Rattle.routing.specs.Making.{lent, new_row};

use crate::row::{RouteRow, Way};
use text::padding::pad;

impl RouteRow {
    // A row that keeps these texts as they are; none where one is longer than a row can keep.
    pub fn new(address: Option<&[u8]>, dataflow: Option<&[u8]>, way: Way) -> Option<RouteRow>
        ensures { result ≡ new_row (lent address.entry) (lent dataflow.entry) way }
    {
        let a = address.unwrap_or_default();
        let d = dataflow.unwrap_or_default();
        if a.len() > 64 || d.len() > 256 {
            return None;
        }
        Some(RouteRow {
            has_address: address.is_some(),
            address: pad::<64>(a),
            address_len: a.len() as u8,
            has_dataflow: dataflow.is_some(),
            dataflow: pad::<256>(d),
            dataflow_len: d.len() as u16,
            way,
        })
    }
}
