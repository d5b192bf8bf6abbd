// What a ledger asks of its rows.
ghost use Rattle.std.specs.Prelude.{◌≡◌, false};
ghost use Rattle.ledger.specs.Kinds.{Kind, Equivalence, has_key};

// A row of a ledger: filled or not, with a key and an end. A row that is not filled counts as free.
// A key is held by value: an associated type cannot be given the lifetime of a text that it borrows.
pub trait Row: Copy {
    type Key: Copy;

    ghost kind: { Kind Self Self.Key };

    fn is_filled(&self) -> bool
        ensures { result ≡ kind.filled self.now };

    // The second at which the row stops being live.
    fn end(&self) -> u64
        ensures { result ≡ kind.ends self.now };

    fn key(&self) -> Self::Key
        ensures { result ≡ kind.key self.now };

    // Whether the row's key is the same as this one: the only way in which keys are compared.
    fn has_key(&self, key: &Self::Key) -> bool
        ensures { result ≡ has_key kind key.now self.now };

    // The row that says nothing.
    fn freed() -> Self
        ensures { result ≡ kind.freed };

    ghost alike: { Equivalence kind.same };

    ghost empty: { kind.filled kind.freed ≡ false };
}
