// One cell: the 2,050 bytes of memory that one place has. The length comes first, in two bytes, the lower one first;
// then the bytes held, and what remains of the 2,048 has no meaning.
ghost use Rattle.std.specs.Prelude.{◌≡◌, ◌≤◌, length};
ghost use Rattle.spool.specs.Meaning.{over_front};
ghost use Rattle.place_spool.specs.Cells.{cell_held, length_bytes, frame};

// The bytes of a cell.
pub(crate) const CELL: usize = 2050;

// The two bytes of a length.
pub(crate) fn length_bytes(length: usize) -> [u8; 2]
    requires { length ≤ 2048 }
    ensures { result ≡ length_bytes length }
{
    (length as u16).to_le_bytes()
}

// How many bytes a cell holds: never more than it has room for, whatever stands in it.
pub(crate) fn held_length(cell: &[u8; CELL]) -> usize
    ensures { result ≡ length (cell_held cell.now) }
{
    (u16::from_le_bytes([cell[0], cell[1]]) as usize).min(2048)
}

// Writes the length and the bytes, and leaves what lies past them.
pub(crate) fn put(cell: &mut [u8], bytes: &[u8])
    requires { (length cell.old ≡ 2050) × (length bytes.now ≤ 2048) }
    ensures { cell.new ≡ over_front (frame bytes.now) cell.old }
{
    let length = bytes.len();
    cell[0..2].copy_from_slice(&length_bytes(length));
    cell[2..2 + length].copy_from_slice(bytes);
}

// Copies what the cell holds to the front of a buffer that is long enough.
pub(crate) fn copy_to(cell: &[u8; CELL], buf: &mut [u8])
    requires { length (cell_held cell.now) ≤ length buf.old }
    ensures { buf.new ≡ over_front (cell_held cell.now) buf.old }
{
    let length = held_length(cell);
    buf[0..length].copy_from_slice(&cell[2..2 + length]);
}
