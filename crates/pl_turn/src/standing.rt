ghost use Rattle.std.specs.Prelude.{◌≡◌, ℕ, List};

/// A value that threads take turns with.
///
/// It stands for a list of entries, its history. Each entry names the number of a seat. Contracts
/// see besides a label, which never changes.
pub trait Standing {
    /// One entry of the history.
    type Entry;

    /// What stays the same of the value. No value of this type need be made.
    type Label;

    /// The list of entries that a value stands for.
    ghost history: { Self → List Self.Entry };

    /// The label of a value.
    ghost label: { Self → Self.Label };

    /// The number of the seat that an entry names.
    ghost names: { Self.Entry → ℕ };

    /// What a value counts, as the faults of a store.
    ghost counted: { Self → ℕ };

    /// The value's count.
    fn count(&self) -> u64
        ensures { result ≡ counted self.now };
}
