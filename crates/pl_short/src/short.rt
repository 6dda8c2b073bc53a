ghost use Rattle.std.specs.Prelude.{IsTrue};

use pl_fields::Written;

/// A value that tells whether it can be written.
pub trait Short: Written {
    /// Whether each text and each list in it has a length of four bytes, and each rule in it a
    /// number. Only what is so can be written.
    fn is_short(&self) -> bool
        ensures { IsTrue result → Self.short self.now };
}

impl<T: Short> Short for &T {
    fn is_short(&self) -> bool {
        Short::is_short(*self)
    }
}
