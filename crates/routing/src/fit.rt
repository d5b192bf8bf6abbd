// Whether a row is lawful and fits, and how it ranks.
ghost use Rattle.std.specs.Prelude.{◌≡◌, ◌≤◌, length};
ghost use Rattle.routing.specs.Rows.{address_of, dataflow_of, lawful_way, lawful_address, lawful_dataflow, lawful_row, leads_to, carries, fits, name_count, rank_of};

use crate::row::{RouteRow, Way};
use address_names::names::{are_first_names, count_names};
use text::case::is_same_text;
use text::forms::{is_address, is_dataflow};
use text::padding::front;

// What a way is looked for: the target, and the dataflow that goes there.
#[derive(Clone, Copy)]
pub(crate) struct Query<'a> {
    pub(crate) target: &'a [u8],
    pub(crate) dataflow: &'a [u8],
}

impl Way {
    fn is_lawful(self) -> bool
        ensures { result ≡ lawful_way self }
    {
        match self {
            Way::Local => true,
            Way::Neighbour(number) => number <= 254,
        }
    }
}

impl RouteRow {
    fn address_part(&self) -> &[u8]
        ensures part { result.now ≡ address_of self.now }
        ensures short { length result.now ≤ 255 }
    {
        front(&self.address, self.address_len as usize)
    }

    fn dataflow_part(&self) -> &[u8]
        ensures { result.now ≡ dataflow_of self.now }
    {
        front(&self.dataflow, self.dataflow_len as usize)
    }

    fn has_lawful_address(&self) -> bool
        ensures { result ≡ lawful_address self.now }
    {
        !self.has_address || self.address_len <= 64 && is_address(self.address_part())
    }

    fn has_lawful_dataflow(&self) -> bool
        ensures { result ≡ lawful_dataflow self.now }
    {
        !self.has_dataflow || self.dataflow_len <= 256 && is_dataflow(self.dataflow_part())
    }

    fn is_lawful(&self) -> bool
        ensures { result ≡ lawful_row self.now }
    {
        self.has_lawful_address() && self.has_lawful_dataflow() && self.way.is_lawful()
    }

    fn leads_to(&self, target: &[u8]) -> bool
        ensures { result ≡ leads_to target.now self.now }
    {
        !self.has_address || are_first_names(self.address_part(), target)
    }

    fn carries(&self, dataflow: &[u8]) -> bool
        ensures { result ≡ carries dataflow.now self.now }
    {
        !self.has_dataflow || is_same_text(self.dataflow_part(), dataflow)
    }

    pub(crate) fn fits(&self, query: Query<'_>) -> bool
        ensures { result ≡ fits query.entry.target.now query.entry.dataflow.now self.now }
    {
        self.is_lawful() && self.leads_to(query.target) && self.carries(query.dataflow)
    }

    fn name_count(&self) -> usize
        ensures count { result ≡ name_count self.now }
        ensures few { result ≤ 256 }
    {
        if self.has_address {
            count_names(self.address_part())
        } else {
            0
        }
    }

    // Twice the names, and one more for a dataflow: a name outweighs it, and among as many names it decides.
    pub(crate) fn rank(&self) -> usize
        ensures { result ≡ rank_of self.now }
    {
        2 * self.name_count() + self.has_dataflow as usize
    }
}
