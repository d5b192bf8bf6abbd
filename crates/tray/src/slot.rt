// The room of one place: 2,048 bytes, of which the first `len` are held.
// A length stands beside them because nothing here allocates; a size as a parameter would have this one value.
ghost use Rattle.std.specs.Prelude.{◌≡◌, ◌≤◌, [], length};
ghost use Rattle.spool.specs.Meaning.{over_front};
ghost use Rattle.tray.specs.Slots.{slot_held};

#[derive(Clone, Copy)]
pub(crate) struct Slot {
    len: usize,
    bytes: [u8; 2048],
}

impl Slot {
    pub(crate) fn empty() -> Slot
        ensures { slot_held result ≡ [] }
    {
        Slot {
            len: 0,
            bytes: [0; 2048],
        }
    }

    // Holds these bytes, and no more of what it held.
    pub(crate) fn put(&mut self, bytes: &[u8])
        requires { length bytes.now ≤ 2048 }
        ensures len { self.new.len ≡ length bytes.now }
        ensures bytes { self.new.bytes ≡ over_front bytes.now self.old.bytes }
    {
        self.len = bytes.len();
        self.bytes[0..bytes.len()].copy_from_slice(bytes);
    }

    pub(crate) fn wipe(&mut self)
        ensures { slot_held self.new ≡ [] }
    {
        self.len = 0;
    }

    pub(crate) fn length(&self) -> usize
        ensures length { result ≡ length (slot_held self.now) }
        ensures bound { result ≤ 2048 }
    {
        self.len.min(2048)
    }

    // Copies what is held to the front of a buffer that is long enough.
    pub(crate) fn copy_to(&self, buf: &mut [u8])
        requires { length (slot_held self.now) ≤ length buf.old }
        ensures { buf.new ≡ over_front (slot_held self.now) buf.old }
    {
        let length = self.length();
        buf[0..length].copy_from_slice(&self.bytes[0..length]);
    }
}
