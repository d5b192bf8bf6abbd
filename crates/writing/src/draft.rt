// A record that is being written at the front of a lent buffer.
ghost use Rattle.std.specs.Prelude.{◌≡◌, ◌+◌, ◌≤◌, length};
ghost use Rattle.writing.specs.Buffers.{pasted};
ghost use Rattle.writing.specs.Encoding.{prefixed};

// The buffer, and how many of its first bytes are written: what comes next is written after them.
#[derive(Drop)]
pub(crate) struct Draft<'b> {
    buf: &'b mut [u8],
    len: usize,
}

impl<'b> Draft<'b> {
    // Nothing is written yet.
    pub(crate) fn new(buf: &'b mut [u8]) -> Draft<'b>
        ensures len { result.len ≡ 0 }
        ensures buf { result.buf.now ≡ buf.old }
        ensures lender { result.buf.ghost_name ≡ buf.entry.ghost_name }
    {
        Draft { buf, len: 0 }
    }

    pub(crate) fn put(&mut self, bytes: &[u8])
        requires { self.old.len + length bytes.now ≤ length self.old.buf.now }
        ensures len { self.new.len ≡ self.old.len + length bytes.now }
        ensures buf { self.new.buf.now ≡ pasted self.old.len bytes.now self.old.buf.now }
        ensures room { length self.new.buf.now ≡ length self.old.buf.now }
        ensures lender { self.new.buf.ghost_name ≡ self.old.buf.ghost_name }
    {
        let end = self.len + bytes.len();
        self.buf[self.len..end].copy_from_slice(bytes);
        self.len = end;
    }

    // Writes `bytes` with their length before them.
    pub(crate) fn put_field(&mut self, bytes: &[u8])
        requires { (self.old.len + 2 + length bytes.now ≤ length self.old.buf.now) × (length bytes.now ≤ 256) }
        ensures len { self.new.len ≡ self.old.len + 2 + length bytes.now }
        ensures buf { self.new.buf.now ≡ pasted self.old.len (prefixed bytes.now) self.old.buf.now }
        ensures room { length self.new.buf.now ≡ length self.old.buf.now }
        ensures lender { self.new.buf.ghost_name ≡ self.old.buf.ghost_name }
    {
        self.put(&(bytes.len() as u16).to_le_bytes());
        self.put(bytes);
    }
}
