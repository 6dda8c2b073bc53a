ghost use Rattle.std.specs.Prelude.{◌≡◌, IfOk};

use crate::boxed::Boxed;
use crate::list::List;
use crate::memory::Memory;
use std::alloc::Global;

/// A value that can be made once more, in memory of its own.
pub trait ExactCopy: Drop {
    /// The same value once more.
    fn copy(&self, alloc: Global) -> Result<Self, Memory>
        ensures { IfOk result (λ copy. copy ≡ self.now) };
}

impl ExactCopy for u32 {
    fn copy(&self, _alloc: Global) -> Result<u32, Memory> {
        Ok(*self)
    }
}

impl<T: ExactCopy> ExactCopy for Boxed<T> {
    fn copy(&self, alloc: Global) -> Result<Boxed<T>, Memory> {
        Boxed::new(alloc, self.get().copy(alloc)?)
    }
}

impl<T: ExactCopy> ExactCopy for List<T> {
    fn copy(&self, alloc: Global) -> Result<List<T>, Memory> {
        let mut copies = List::new(alloc);
        for item in self.as_slice() {
            copies.push(item.copy(alloc)?)?;
        }
        Ok(copies)
    }
}

impl<T: ExactCopy> ExactCopy for Option<T> {
    fn copy(&self, alloc: Global) -> Result<Option<T>, Memory> {
        match self {
            Some(value) => Ok(Some(value.copy(alloc)?)),
            None => Ok(None),
        }
    }
}
