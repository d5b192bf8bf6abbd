// The worked figures that the documents give, proved of the definitions, under one claim.

#![tactic(auto)]

ghost use Rattle.std.specs.Prelude.{◌≡◌};
ghost use Rattle.envelope_fields.specs.Plain.{plain};
ghost use Rattle.figures.specs.Figures.{Figures, berth_request};

use envelope_fields::fields::{Content, Fields};

fn request() -> Fields<'static>
    ensures { plain result ≡ berth_request }
{
    Fields {
        content: Content::Message,
        todt: 1_000_000,
        to: 60,
        ar: 1,
        vb: 1,
        on: b"FERRY000000000000001",
        fr: b"AAA:F1",
        ad: b"XHB:EAST",
        df: b"urn:berth",
        ct: b"",
        rest: b"",
    }
}

// The request of a ferry for a berth, which the figures are about.
pub fn berth_request() -> Fields<'static>
    ensures fields { plain result ≡ berth_request }
    ensures figures { Figures }
{
    request()
}
