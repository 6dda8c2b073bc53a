ghost use Rattle.std.specs.Prelude.{◌≡◌, ◌++◌, ℕ, List, length, OnOk};
ghost use Rattle.pl_fields.specs.Fields.{told_size};
ghost use Rattle.pl_fields.specs.Reading.{IsOneWay, Reads};

use crate::fault::DecodeFault;
use pl_base::Memory;
use std::alloc::Global;

/// A value that is written as bytes.
pub trait Written {
    /// The bytes that a value is written as.
    ghost spelled: { Self → List ℕ };

    /// What can be written: its texts and lists have lengths of four bytes.
    ghost short: { Self → Type 0 };

    /// What is read again: besides, it is a value of its type.
    ghost fits: { Self → Type 0 };

    /// How many bytes it takes, as far as a `usize` tells it.
    fn size(&self) -> usize
        ensures { result ≡ told_size (length (spelled self.now)) };

    /// Puts the value's bytes behind those that are there. What stands behind these after Memory is
    /// left open.
    fn put(&self, out: &mut Vec<u8>) -> Result<(), Memory>
        requires { short self.now }
        ensures ok { OnOk result (out.new.items ≡ out.old.items ++ spelled self.now) }
        ensures fits { OnOk result (fits self.now) };
}

/// A value that is written as bytes and read from them.
pub trait Field: Written + Drop {
    /// Reads the value at the front of the bytes, and says what stands behind it.
    ///
    /// Torn comes exactly where no value that fits stands there.
    fn read(alloc: Global, bytes: &[u8]) -> Result<(Self, &[u8]), DecodeFault>
        ensures { Reads Self.spelled Self.fits (λ read. (read.0, read.1.now)) bytes.now result };

    /// No spelling begins another one.
    ghost one_way: { IsOneWay Self.spelled Self.fits };
}

impl<T: Written> Written for &T {
    ghost spelled = { λ value. T.spelled value.now };

    ghost short = { λ value. T.short value.now };

    ghost fits = { λ value. T.fits value.now };

    fn size(&self) -> usize {
        Written::size(*self)
    }

    fn put(&self, out: &mut Vec<u8>) -> Result<(), Memory> {
        Written::put(*self, out)
    }
}
