// The standing of a place (our own word): what has become of the envelope that lies in it.
ghost use Rattle.std.specs.Prelude.{◌≡◌};
ghost use Rattle.standing.specs.Standings.{is_free, out_under, waiting_again};

use envelope::parts::Kind;
use routing::row::Way;

// What the calls need of an envelope, apart from its bytes.
#[derive(Clone, Copy)]
pub struct About {
    pub kind: Kind,
    // the second at which it is no longer live
    pub end: u64,
    // after so many seconds a try is given up
    pub timeout: u16,
    // whether a receipt is wanted
    pub receipt: bool,
    // whether somebody is to be noticed of a double fault
    pub notify: bool,
    // where a report on a message goes
    pub back: Way,
}

#[derive(Clone, Copy)]
pub enum Standing {
    Free,
    // for this neighbour, not before `due`, after so many failed tries
    Waiting {
        hop: u8,
        due: u64,
        failed: u8,
        about: About,
    },
    // handed out to this neighbour under a try number
    Out {
        hop: u8,
        number: u32,
        since: u32,
        failed: u8,
        about: About,
    },
    // for the local office
    Inbox {
        entered: u32,
        about: About,
    },
    // a double fault, for the contacts
    Notice {
        entered: u32,
        about: About,
    },
}

impl Standing {
    pub(crate) fn is_free(&self) -> bool
        ensures { result ≡ is_free self.now }
    {
        matches!(self, Standing::Free)
    }

    // A waiting envelope is out under a try number; any other stays as it is.
    pub(crate) fn hand_out(&mut self, number: u32, since: u32)
        ensures { self.new ≡ out_under number since self.old }
    {
        if let Standing::Waiting {
            hop,
            failed,
            about,
            ..
        } = *self
        {
            *self = Standing::Out {
                hop,
                number,
                since,
                failed,
                about,
            };
        }
    }

    // An envelope that is out waits again; any other stays as it is.
    pub(crate) fn wait_again(&mut self, due: u64, failed: u8)
        ensures { self.new ≡ waiting_again due failed self.old }
    {
        if let Standing::Out { hop, about, .. } = *self {
            *self = Standing::Waiting {
                hop,
                due,
                failed,
                about,
            };
        }
    }
}
