// An address that keeps its form as long as it exists.
ghost use Rattle.std.specs.Prelude.{◌≡◌, ◌≤◌, true, take};
ghost use Rattle.text.specs.Forms.{is_address};

mod filling;

// Its bytes, zeros after them, and how many they are: an array and a length, since nothing here allocates.
#[derive(Clone, Copy)]
pub struct Address {
    bytes: [u8; 64],
    len: usize,
    ghost within: { len ≤ 64 },
    ghost form: { is_address (take len bytes) ≡ true },
}
