ghost use Rattle.std.specs.Prelude.{◌≡◌, Bool, Option};
ghost use Rattle.std.specs.Option.{option_map};
ghost use Rattle.pl_log.specs.Keys.{seen, second_seen, Named, SecondNamed};

use crate::key::{Key, SecondKey};

/// An item of a log: what it is about.
pub trait Keyed: Drop {
    ghost named: { Self → Named };

    ghost second: { Self → Option SecondNamed };

    /// What the item is about.
    fn key(&self) -> Key<'_>
        ensures { seen result ≡ named self.now };

    /// What it is about besides, if anything.
    fn second_key(&self) -> Option<SecondKey<'_>>
        ensures { option_map second_seen result ≡ second self.now };
}

/// A test of items.
pub trait Test<T> {
    ghost passes: { Self → T → Bool };

    /// Whether an item passes.
    fn passes(&self, item: &T) -> bool
        ensures { result ≡ passes self.now item.now };
}
