// Up to 64 admitted connections.
ghost use Rattle.std.specs.Prelude.{◌≡◌, replicate};
ghost use Rattle.connections.specs.Slots.{admitted_at, lent_admitted, is_free, with_slot};
ghost use Rattle.connections.specs.declared.connections.Slot.TheVariants.{Closed};
ghost use Rattle.connections.specs.declared.connections.Slot.TheVariants as slot;

use connection::admitted::Admitted;

// How many connections can be admitted at a time.
pub const CONNECTIONS: usize = 64;

// A number under which no connection is admitted, or one is. An `Option` would be no plainer: it has a drop only where what it
// holds has one, and a connection has none, so that nobody lets one go unclosed.
pub enum Slot {
    Closed,
    Admitted(Admitted),
}

// A connection that nobody holds any more is closed.
impl Drop for Slot {
    fn drop(self) {
        match self {
            Slot::Closed => {}
            Slot::Admitted(connection) => connection.close(),
        }
    }
}

// An array, since nothing here allocates.
#[derive(Drop)]
pub struct Connections {
    slots: [Slot; 64],
}

impl Connections {
    // None is admitted.
    pub fn new() -> Connections
        ensures { result.slots ≡ replicate 64 Closed }
    {
        Connections {
            slots: [const { Slot::Closed }; CONNECTIONS],
        }
    }

    // The connection that is admitted under a number.
    pub fn at(&self, number: usize) -> Option<&Admitted>
        ensures { lent_admitted result ≡ admitted_at self.now.slots number }
    {
        match self.slots.get(number) {
            Some(Slot::Admitted(connection)) => Some(connection),
            _ => None,
        }
    }

    // Whether a connection can be admitted under a number.
    pub fn is_free(&self, number: usize) -> bool
        ensures { result ≡ is_free self.now.slots number }
    {
        matches!(self.slots.get(number), Some(Slot::Closed))
    }

    // Keeps a connection under a number; one under a number past the last is closed.
    pub fn keep(&mut self, number: usize, connection: Admitted)
        ensures { self.new.slots ≡ with_slot self.old.slots number (slot.Admitted connection) }
    {
        if number < CONNECTIONS {
            self.slots[number] = Slot::Admitted(connection);
        } else {
            connection.close();
        }
    }

    // Closes the connection under a number.
    pub fn close(&mut self, number: usize)
        ensures { self.new.slots ≡ with_slot self.old.slots number Closed }
    {
        if number < CONNECTIONS {
            self.slots[number] = Slot::Closed;
        }
    }
}
