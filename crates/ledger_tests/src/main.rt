// Plays the edges of the ledgers: full ones, ended rows, keys in another letter case, the second of the end, no rows at all.

#![tactic(auto)]

mod messages;
mod statuses;
mod telling;
mod white_list;

use std::io;

fn main(rt: HostRuntime) -> io::Result<()> {
    messages::play(&rt)?;
    statuses::play(&rt)?;
    white_list::play(&rt)
}
