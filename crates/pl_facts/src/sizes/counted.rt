//! What counts in a size, and how lists and options count.

ghost use Rattle.std.specs.Prelude.{◌≡◌, ℕ};
ghost use Rattle.pl_facts.specs.Sizes.{counted, if_any, pair_size, text_size, total};

use pl_base::{List, Shared, Text};

/// What has a size.
pub(crate) trait Counted {
    /// The bytes of its texts.
    ghost bytes: { Self → ℕ };

    /// The bytes of its texts, or 2^64 - 1 where they are more.
    fn size(&self) -> u64
        ensures { result ≡ counted (bytes self.now) };
}

impl Counted for Text {
    ghost bytes = { text_size };

    fn size(&self) -> u64 {
        self.len() as u64
    }
}

impl Counted for (Text, Text) {
    ghost bytes = { pair_size };

    fn size(&self) -> u64 {
        self.0.size().saturating_add(self.1.size())
    }
}

impl<T: Counted> Counted for List<T> {
    ghost bytes = { total T.bytes };

    fn size(&self) -> u64 {
        let mut size: u64 = 0;
        for item in self.as_slice() {
            size = size.saturating_add(item.size());
        }
        size
    }
}

impl<T: Counted> Counted for Option<T> {
    ghost bytes = { if_any T.bytes };

    fn size(&self) -> u64 {
        match self {
            Some(item) => item.size(),
            None => 0,
        }
    }
}

impl<T: Counted> Counted for Shared<T> {
    ghost bytes = { T.bytes };

    fn size(&self) -> u64 {
        (**self).size()
    }
}
