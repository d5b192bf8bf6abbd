// What a white-list row keeps of a client.
ghost use Rattle.std.specs.Prelude.{◌≡◌};
ghost use Rattle.short_text.specs.ShortTexts.{kept_text};
ghost use Rattle.client_rows.specs.Clients.{client_of, client_ok, nameless_client, at_address};

use short_text::short_text::ShortText;

// The class of a client that sends and receives at one address of its own.
pub const ENDPOINT: u8 = 1;

// The class of a client that passes envelopes on.
pub const NODE: u8 = 2;

// The last number that a neighbour may have.
const LAST_NEIGHBOUR: u8 = 254;

// The neighbour that the client is, its class, and its address where it has one.
// The class is a number, and a flag says whether there is an address: whoever fills a row may write anything there, and
// `is_lawful` judges it. A narrower type would ask more of them.
#[derive(Clone, Copy)]
pub struct Client {
    pub neighbour: u8,
    pub class: u8,
    pub has_address: bool,
    pub address: ShortText,
}

// A client without an address.
pub(crate) fn nameless(neighbour: u8, class: u8) -> Client
    ensures { result ≡ nameless_client neighbour class }
{
    Client {
        neighbour,
        class,
        has_address: false,
        address: ShortText::empty(),
    }
}

// None where the address is longer than a row can keep.
fn at_address(neighbour: u8, class: u8, text: &[u8]) -> Option<Client>
    ensures { result ≡ at_address neighbour class (kept_text text.now) }
{
    let address = ShortText::new(text)?;
    Some(Client {
        neighbour,
        class,
        has_address: true,
        address,
    })
}

impl Client {
    // A Node has no address, whatever is given; none where another's is longer than a row can keep.
    pub fn new(neighbour: u8, class: u8, address: Option<&[u8]>) -> Option<Client>
        ensures { result ≡ client_of neighbour class address.entry }
    {
        match address {
            Some(text) if class != NODE => at_address(neighbour, class, text),
            _ => Some(nameless(neighbour, class)),
        }
    }

    // An Endpoint has a lawful address; an address that a Node has does not count.
    pub fn is_lawful(&self) -> bool
        ensures { result ≡ client_ok self.now }
    {
        let known = self.class == NODE
            || (self.class == ENDPOINT && self.has_address && self.address.is_address());
        self.neighbour <= LAST_NEIGHBOUR && known
    }
}
