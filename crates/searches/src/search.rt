// What a search over the places looks for at a standing, and what it finds.
ghost use Rattle.std.specs.Prelude.{◌≡◌};
ghost use Rattle.searches.specs.Searches.{due_at, inbox_since, notice_since, duty_at};
ghost use Rattle.searches.specs.Earliest.{sooner};

use envelope::parts::Kind;
use standing::standing::Standing;

// A place, and the time by which it was found.
#[derive(Clone, Copy)]
pub struct Found {
    pub place: usize,
    pub time: u64,
}

// What a sweep has to do.
#[derive(Clone, Copy)]
pub enum Duty {
    GiveUp,
    Expire,
    EndStatus,
}

#[derive(Clone, Copy)]
pub struct Task {
    pub place: usize,
    pub duty: Duty,
}

pub(crate) fn due_at(time: u32, standing: Standing) -> Option<u64>
    ensures { result ≡ due_at time standing }
{
    match standing {
        Standing::Waiting { due, about, .. } if due <= time as u64 && (time as u64) < about.end =>
            Some(due),
        _ => None,
    }
}

pub(crate) fn inbox_since(standing: Standing) -> Option<u64>
    ensures { result ≡ inbox_since standing }
{
    match standing {
        Standing::Inbox { entered, .. } => Some(entered as u64),
        _ => None,
    }
}

pub(crate) fn notice_since(standing: Standing) -> Option<u64>
    ensures { result ≡ notice_since standing }
{
    match standing {
        Standing::Notice { entered, .. } => Some(entered as u64),
        _ => None,
    }
}

// Of two places the one with the earlier time; the first where both have the same.
pub(crate) fn sooner(first: Found, second: Found) -> Found
    ensures { result ≡ sooner first second }
{
    if first.time <= second.time {
        first
    } else {
        second
    }
}

// What is due at a place.
pub(crate) fn duty_at(time: u32, standing: Standing) -> Option<Duty>
    ensures { result ≡ duty_at time standing }
{
    match standing {
        Standing::Out { since, about, .. } if since as u64 + about.timeout as u64 <= time as u64 =>
            Some(Duty::GiveUp),
        Standing::Waiting { about, .. } if about.end <= time as u64 => Some(match about.kind {
            Kind::Message => Duty::Expire,
            Kind::Status => Duty::EndStatus,
        }),
        _ => None,
    }
}
