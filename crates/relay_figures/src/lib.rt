// The worked figures of the relay that the documents give, proved of the definitions, under one claim.

#![tactic(auto)]

ghost use Rattle.std.specs.Prelude.{◌≡◌};
ghost use Rattle.envelope_fields.specs.Plain.{plain};
ghost use Rattle.relay_figures.specs.Scenes.{receipt_report};
ghost use Rattle.relay_figures.specs.RelayFigures.{RelayFigures};

use envelope_fields::fields::{Content, Fields};

fn report() -> Fields<'static>
    ensures { plain result ≡ receipt_report }
{
    Fields {
        content: Content::Status(100),
        todt: 1_000_000,
        to: 60,
        ar: 1,
        vb: 1,
        on: b"FERRY000000000000001",
        fr: b"XHB:GATE",
        ad: b"AAA:F1",
        df: b"urn:berth",
        ct: b"",
        rest: b"",
    }
}

// The report to the ferry that its request for a berth was received, with which the figures end.
pub fn receipt_report() -> Fields<'static>
    ensures fields { plain result ≡ receipt_report }
    ensures figures { RelayFigures }
{
    report()
}
