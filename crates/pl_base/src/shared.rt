ghost use Rattle.std.specs.Prelude.{◌≡◌, IfOk};
ghost use Rattle.std.specs.Arc.{arc_value};

use crate::exact_copy::ExactCopy;
use crate::memory::Memory;
use std::alloc::Global;
use std::fmt;
use std::marker::Model;
use std::ops::Deref;
use std::sync::Arc;

/// A value on the heap that its copies share. Contracts see it as that value: that a copy takes no
/// memory of its own is about cost alone.
#[derive(Drop)]
pub struct Shared<T> {
    place: Arc<T, Global>,
}

impl<T> Model for Shared<T> {
    ghost use Rattle.std.specs.Arc.{arc_value};

    ghost Value = { T };

    ghost coded = { T.code };

    ghost view = { λ shared. arc_value shared.place };
}

impl<T: Drop> Shared<T> {
    /// Puts a value where copies can share it. Memory drops the value.
    pub fn new(alloc: Global, value: T) -> Result<Shared<T>, Memory>
        ensures { IfOk result (λ shared. shared ≡ value) }
    {
        let place = Arc::new(alloc, value)?;
        Ok(Shared { place })
    }
}

impl<T> Deref for Shared<T> {
    type Target = T;

    ghost deref_gives = { λ shared value. value ≡ shared };

    fn deref(&self) -> &T
        ensures { result.now ≡ self.now }
    {
        &self.place
    }
}

/// The copy shares the value, in constant time; Memory comes where the count of copies has no room.
impl<T: Drop> ExactCopy for Shared<T> {
    fn copy(&self, _alloc: Global) -> Result<Shared<T>, Memory> {
        let place = Arc::try_clone(&self.place)?;
        Ok(Shared { place })
    }
}

impl<T: fmt::Debug> fmt::Debug for Shared<T> {
    fn fmt<W: fmt::Write>(&self, f: &mut fmt::Formatter<W>) -> fmt::Result {
        fmt::Debug::fmt(&**self, f)
    }
}

/// By their values.
impl<T: PartialEq> PartialEq for Shared<T> {
    ghost eq = { T.eq };

    ghost laws = { T.PartialEq.laws };

    fn eq(&self, other: &Shared<T>) -> bool {
        **self == **other
    }
}

impl<T: Eq> Eq for Shared<T> {
    ghost laws = { T.Eq.laws };
}
