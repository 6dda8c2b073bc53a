ghost use Rattle.std.specs.Prelude.{◌≡◌, ◌<◌, [], ◌∷◌, ◌++◌, length, slice_get, slice_set, ◌↔◌};
ghost use Rattle.std.specs.Prelude.{IsTrue, IfOk, OnOk, OnErr, OnSome, MatchOption};
ghost use Rattle.std.specs.Option.{option_copied};
ghost use Rattle.std.specs.Cmp.Lexicographic.{pointwise, lists_per, lists_equiv};

use crate::memory::Memory;
use std::alloc::Global;
use std::marker::Model;

/// Bytes in order.
pub type Bytes = List<u8>;

/// Items in order, which contracts see as the list of them.
#[derive(Debug, Drop)]
pub struct List<T> {
    items: Vec<T>,
}

impl<T> Model for List<T> {
    ghost use Rattle.std.specs.Prelude.{List as list};
    ghost use Rattle.std.specs.Coded.{coded_list};

    ghost Value = { list T };

    ghost coded = { coded_list T.code };

    ghost view = { λ list. list.items.items };
}

impl<T> List<T> {
    /// No items. It takes no memory until the first item comes.
    pub fn new(alloc: Global) -> List<T>
        ensures { result ≡ [] }
    {
        List {
            items: Vec::new(alloc),
        }
    }

    /// The items of a vector, in its order. It takes no memory.
    pub fn from_vec(items: Vec<T>) -> List<T>
        ensures { result ≡ items.items }
    {
        List { items }
    }

    /// The items as a vector, in order. It takes no memory.
    pub fn into_vec(self) -> Vec<T>
        ensures { result.items ≡ self }
    {
        let List { items } = self;
        items
    }

    /// The items, in order.
    pub fn as_slice(&self) -> &[T]
        ensures { result.now ≡ self.now }
    {
        self.items.as_slice()
    }

    /// How many items there are.
    pub fn len(&self) -> usize
        ensures { result ≡ length self.now }
    {
        self.items.len()
    }

    /// Whether there is no item.
    pub fn is_empty(&self) -> bool
        ensures { IsTrue result ↔ (self.now ≡ []) }
    {
        self.items.is_empty()
    }

    /// The item at a place from 0, or None where the list is no longer than that.
    pub fn get(&self, at: usize) -> Option<&T>
        ensures value { option_copied result ≡ slice_get self.now at }
        ensures within { OnSome result (at < length self.now) }
    {
        self.items.get(at)
    }

    /// Takes the last item off, or None where there is no item.
    pub fn pop(&mut self) -> Option<T>
        ensures { MatchOption result ((self.old ≡ []) × (self.new ≡ [])) (λ last. self.old ≡
            self.new ++ last ∷ []) }
    {
        self.items.pop()
    }
}

impl<T: Drop> List<T> {
    /// Puts an item behind the last one. After Memory the list is as before, and the item is
    /// dropped. The first item takes room for one alone, since most lists of trees have one.
    pub fn push(&mut self, item: T) -> Result<(), Memory>
        ensures ok { OnOk result (self.new ≡ self.old ++ item ∷ []) }
        ensures err { OnErr result (self.new ≡ self.old) }
    {
        if self.items.capacity() == 0 {
            self.items.reserve_exact(1)?;
        }
        self.items.push(item)?;
        Ok(())
    }

    /// Puts an item in the place of the one at a place from 0.
    pub fn set(&mut self, at: usize, item: T)
        requires { at < length self.old }
        ensures { self.new ≡ slice_set self.old at item }
    {
        self.items[at] = item;
    }
}

impl<T: Copy> List<T> {
    /// The items of a slice, in its order.
    pub fn from_slice(alloc: Global, items: &[T]) -> Result<List<T>, Memory>
        ensures { IfOk result (λ list. list ≡ items.now) }
    {
        let items = Vec::from_slice(alloc, items)?;
        Ok(List { items })
    }
}

impl<T: PartialEq> PartialEq for List<T> {
    ghost eq = { pointwise T.eq };

    ghost laws = { lists_per T.PartialEq.laws };

    fn eq(&self, other: &List<T>) -> bool {
        self.as_slice() == other.as_slice()
    }
}

impl<T: Eq> Eq for List<T> {
    ghost laws = { lists_equiv T.Eq.laws };
}
