// The standings of 256 places. One is lent at a time, and changed by the few functions below.
ghost use Rattle.std.specs.Prelude.{◌≡◌, length, min, take, replicate};
ghost use Rattle.standing.specs.declared.standing.Standing.TheVariants.{Free, Waiting, Inbox, Notice};
ghost use Rattle.standing.specs.Standings.{out_under, waiting_again, standing_at, with_standing};
ghost use Rattle.standing.specs.Frees.{first_free};

use crate::standing::{About, Standing};

pub const PLACES: usize = 256;

// An array, since nothing here allocates.
#[derive(Drop)]
pub struct Table {
    standings: [Standing; 256],
    // what the array's type says, for the contracts of other crates
    ghost full: { length standings ≡ 256 },
}

fn first_free(standings: &[Standing]) -> Option<usize>
    ensures { result ≡ first_free 0 standings.now }
{
    standings.iter().position(|standing| standing.is_free())
}

impl Table {
    // Every place is free.
    pub fn new() -> Table
        ensures { result.standings ≡ replicate 256 Free }
    {
        Table {
            standings: [Standing::Free; PLACES],
        }
    }

    // The standing of a place; one past the last counts as free.
    pub fn at(&self, place: usize) -> Standing
        ensures { result ≡ standing_at self.now.standings place }
    {
        self.standings.get(place).copied().unwrap_or(Standing::Free)
    }

    // Here, in `hand_out` and in `wait_again` a place is compared and indexed: `get_mut` was tried, and the proof of what the
    // table holds afterwards didn't close.
    fn put(&mut self, place: usize, standing: Standing)
        ensures { self.new.standings ≡ with_standing self.old.standings place standing }
    {
        if place < PLACES {
            self.standings[place] = standing;
        }
    }

    // Makes an envelope wait for a neighbour.
    pub fn wait(&mut self, place: usize, hop: u8, due: u64, about: About)
        ensures { self.new.standings ≡ with_standing self.old.standings place (Waiting hop due 0 about) }
    {
        self.put(
            place,
            Standing::Waiting {
                hop,
                due,
                failed: 0,
                about,
            },
        );
    }

    // Hands a waiting envelope out under a try number.
    pub fn hand_out(&mut self, place: usize, number: u32, since: u32)
        ensures { self.new.standings ≡ with_standing self.old.standings place (out_under number since (standing_at self.old.standings place)) }
    {
        if place < PLACES {
            self.standings[place].hand_out(number, since);
        }
    }

    // Makes an envelope that is out wait again, after one failed try more.
    pub fn wait_again(&mut self, place: usize, due: u64, failed: u8)
        ensures { self.new.standings ≡ with_standing self.old.standings place (waiting_again due failed (standing_at self.old.standings place)) }
    {
        if place < PLACES {
            self.standings[place].wait_again(due, failed);
        }
    }

    // Enters an envelope into the inbox of the local office.
    pub fn enter(&mut self, place: usize, entered: u32, about: About)
        ensures { self.new.standings ≡ with_standing self.old.standings place (Inbox entered about) }
    {
        self.put(place, Standing::Inbox { entered, about });
    }

    // Makes a place a notice for the contacts.
    pub fn become_notice(&mut self, place: usize, entered: u32, about: About)
        ensures { self.new.standings ≡ with_standing self.old.standings place (Notice entered about) }
    {
        self.put(place, Standing::Notice { entered, about });
    }

    pub fn free(&mut self, place: usize)
        ensures { self.new.standings ≡ with_standing self.old.standings place Free }
    {
        self.put(place, Standing::Free);
    }

    // The lowest free place of the first `count`.
    pub fn lowest_free(&self, count: usize) -> Option<usize>
        ensures { result ≡ first_free 0 (take (min count 256) self.now.standings) }
    {
        first_free(&self.standings[..count.min(PLACES)])
    }

    // The standings of all places, to look through.
    pub fn all(&self) -> &[Standing]
        ensures { result.now ≡ self.now.standings }
    {
        &self.standings
    }
}
