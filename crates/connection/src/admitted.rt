// Admitted connections: the only ones that bring envelopes.
ghost use Rattle.std.specs.Prelude.{◌≡◌};
ghost use Rattle.connection.specs.Admissions.{admitted_as, address_of, may_send};

use crate::words::{pack, spread};
use client_rows::client::{Client, ENDPOINT};
use short_text::short_text::ShortText;
use text::case::is_same_text;

// What is kept of a client while its connection lasts. A host keeps plain numbers alone, by a rule of the project: so the
// address is eight words and a length.
// It is neither copied nor let go: whoever has it hands it on or closes it.
pub struct Admitted {
    neighbour: u8,
    class: u8,
    length: u8,
    words: [u64; 8],
}

impl Admitted {
    pub(crate) fn new(client: &Client) -> Admitted
        ensures value { result ≡ admitted_as client.now }
        ensures address { address_of result ≡ client.now.address }
    {
        Admitted {
            neighbour: client.neighbour,
            class: client.class,
            length: client.address.len,
            words: pack(&client.address.bytes),
        }
    }

    // The number of the neighbour that the connection is with.
    pub fn neighbour(&self) -> u8
        ensures { result ≡ self.now.neighbour }
    {
        self.neighbour
    }

    // The client's class: an Endpoint or a Node.
    pub fn class(&self) -> u8
        ensures { result ≡ self.now.class }
    {
        self.class
    }

    // The address in the client's row; it means nothing where the client is a Node.
    pub fn address(&self) -> ShortText
        ensures { result ≡ address_of self.now }
    {
        ShortText {
            bytes: spread(&self.words),
            len: self.length,
        }
    }

    // Whether the client may bring an envelope from this sender: an Endpoint sends for its own address alone.
    pub fn may_send(&self, from: &[u8]) -> bool
        ensures { result ≡ may_send self.now from.now }
    {
        if self.class == ENDPOINT {
            is_same_text(self.address().text(), from)
        } else {
            true
        }
    }

    // Ends the connection. It gives nothing back, so there is nothing to promise: what counts is that it takes the
    // connection, which nobody can use afterwards.
    pub fn close(self) {
        let Admitted {
            neighbour: _,
            class: _,
            length: _,
            words: _,
        } = self;
    }
}
