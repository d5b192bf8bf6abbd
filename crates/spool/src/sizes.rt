// How much a spool takes.
ghost use Rattle.std.specs.Prelude.{◌≡◌};
ghost use Rattle.spool.specs.Meaning.{storable};

// No spool has more places.
pub const MOST_PLACES: usize = 256;

// No place holds more bytes.
pub const MOST_BYTES: usize = 2048;

// Whether a place takes so many bytes.
pub fn is_storable(length: usize) -> bool
    ensures { result ≡ storable length }
{
    1 <= length && length <= MOST_BYTES
}
