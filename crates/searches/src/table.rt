// Looking through the standings of all places.
ghost use Rattle.std.specs.Prelude.{◌≡◌, ℕ, Option};
ghost use Rattle.standing.specs.declared.standing.Standing.{Standing};
ghost use Rattle.searches.specs.Searches.{first_duty};
ghost use Rattle.searches.specs.Earliest.{Due, Entry, Notified, Computes, earliest_by, earliest, FirstOf};

use crate::search::{Found, Task, due_at, duty_at, inbox_since, notice_since, sooner};
use standing::standing::Standing;
use standing::table::Table;

fn lowest_duty(standings: &[Standing], time: u32) -> Option<Task>
    ensures { result ≡ first_duty time 0 standings.now }
{
    for (place, standing) in standings.iter().enumerate() {
        if let Some(duty) = duty_at(time, *standing) {
            return Some(Task { place, duty });
        }
    }
    None
}

// Of the places at which `time_of` gives a time, the one with the least, then the lowest.
fn earliest<F: Fn(Standing) -> Option<u64>>(table: &Table, time_of: F) -> Option<Found>
    requires { F.IsAlwaysCallable time_of }
    ensures { (h : Standing → Option ℕ) → Computes (F.post time_of) h → result ≡ earliest_by h 0 table.now.standings }
{
    table
        .all()
        .iter()
        .enumerate()
        .filter_map(|(place, standing)| time_of(*standing).map(|time| Found { place, time }))
        .reduce(sooner)
}

// The lowest place where something is due, and what.
pub fn first_duty(table: &Table, time: u32) -> Option<Task>
    ensures { result ≡ first_duty time 0 table.now.standings }
{
    lowest_duty(table.all(), time)
}

// Of the live waiting envelopes that are due, the one with the least due time, then the lowest place.
#[tactic(auto, using(crate::proofs::First::first_of))]
pub fn next_due(table: &Table, time: u32) -> Option<Found>
    ensures value { result ≡ earliest (Due time) 0 table.now.standings }
    ensures first { FirstOf (Due time) table.now.standings result }
{
    earliest(table, |standing| due_at(time, standing))
}

// The entry of the inbox that came first, then the lowest place.
#[tactic(auto, using(crate::proofs::First::first_of))]
pub fn oldest_entry(table: &Table) -> Option<Found>
    ensures value { result ≡ earliest Entry 0 table.now.standings }
    ensures first { FirstOf Entry table.now.standings result }
{
    earliest(table, inbox_since)
}

// The notice that came first, then the lowest place.
#[tactic(auto, using(crate::proofs::First::first_of))]
pub fn oldest_notice(table: &Table) -> Option<Found>
    ensures value { result ≡ earliest Notified 0 table.now.standings }
    ensures first { FirstOf Notified table.now.standings result }
{
    earliest(table, notice_since)
}
