// The ways of an envelope: on to its recipient, and back to where it came from.
ghost use Rattle.std.specs.Prelude.{◌≡◌};
ghost use Rattle.envelope.specs.Views.{view};
ghost use Rattle.arrival_checks.specs.Ways.{way_to, is_sent_back, unless_sent_back, both_ways, message_ways, status_ways};

use crate::fault::ArrivalFault;
use envelope::parts::Parts;
use routing::choice::choose;
use routing::row::{RouteRow, Way};

#[derive(Clone, Copy)]
pub struct Ways {
    pub on: Way,
    pub back: Way,
}

// None also where the choice refuses a text; those of an envelope that was read are not refused.
fn way_to(routes: &[RouteRow], target: &[u8], dataflow: &[u8]) -> Option<Way>
    ensures { result ≡ way_to routes.now target.now dataflow.now }
{
    choose(routes, target, dataflow).unwrap_or(None)
}

// Whether a way leads to the neighbour who brought the envelope.
fn is_sent_back(neighbour: u8, on: Way) -> bool
    ensures { result ≡ is_sent_back neighbour on }
{
    on == Way::Neighbour(neighbour)
}

fn unless_sent_back(neighbour: u8, on: Way, back: Way) -> Result<Ways, ArrivalFault>
    ensures { result ≡ unless_sent_back neighbour on back }
{
    if is_sent_back(neighbour, on) {
        Err(ArrivalFault::SentBack)
    } else {
        Ok(Ways { on, back })
    }
}

fn both_ways(neighbour: u8, on: Option<Way>, back: Option<Way>) -> Result<Ways, ArrivalFault>
    ensures { result ≡ both_ways neighbour on back }
{
    let on = on.ok_or(ArrivalFault::NoWayOn)?;
    let back = back.ok_or(ArrivalFault::NoWayBack)?;
    unless_sent_back(neighbour, on, back)
}

pub fn message_ways(
    routes: &[RouteRow],
    neighbour: u8,
    parts: Parts<'_>,
) -> Result<Ways, ArrivalFault>
    ensures { result ≡ message_ways routes.now neighbour (view parts.entry) }
{
    let on = way_to(routes, parts.ad.bytes, parts.df.bytes);
    let back = way_to(routes, parts.fr.bytes, parts.df.bytes);
    both_ways(neighbour, on, back)
}

// Nothing goes back for a status: the local office stands for its way back, and means nothing.
pub fn status_ways(
    routes: &[RouteRow],
    neighbour: u8,
    parts: Parts<'_>,
) -> Result<Ways, ArrivalFault>
    ensures { result ≡ status_ways routes.now neighbour (view parts.entry) }
{
    let on = way_to(routes, parts.ad.bytes, parts.df.bytes);
    both_ways(neighbour, on, Some(Way::Local))
}
