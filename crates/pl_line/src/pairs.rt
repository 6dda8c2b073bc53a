ghost use Rattle.std.specs.Prelude.{◌≡◌, ℕ, List, [], ◌∷◌, ◌++◌, true, nat_eq, length, codes, IfOk};
ghost use Rattle.std.specs.Prelude.{OnOk};
ghost use Rattle.std.specs.List.{starts_with};
ghost use Rattle.pl_line.specs.Trees as spec;
ghost use Rattle.pl_line.specs.Keys.{is_found, all_within};

use crate::keys::{Keys, has_key, stands_at};
use crate::numbers::number_of;
use pl_base::{List as ItemList, Memory, NodePair, Text};
use std::alloc::Global;
use std::mem;

/// The pairs of a mapping so far, in order. Behind a few of them, their keys are kept besides.
#[derive(Drop)]
pub struct Pairs {
    pub pairs: ItemList<NodePair>,
    keys: Keys,
    ghost same: { (key : List ℕ) → is_found keys pairs key ≡ spec.has_key key pairs },
    ghost within: { (number : ℕ) → all_within keys (length pairs) number ≡ true },
}

impl Pairs {
    /// No pairs.
    pub fn new(alloc: Global) -> Pairs
        ensures { result.pairs ≡ [] }
    {
        Pairs {
            pairs: ItemList::new(alloc),
            keys: Keys::Few,
        }
    }

    /// Whether a key is one of those, where that matters.
    pub fn is_doubled(&self, key: &Text) -> bool
        ensures { result ≡ spec.is_doubled key.now self.now.pairs }
    {
        !begins_with_expression(key) && self.has_key(key)
    }

    /// Whether a key is one of those.
    fn has_key(&self, key: &Text) -> bool
        ensures { result ≡ spec.has_key key.now self.now.pairs }
    {
        let pairs = self.pairs.as_slice();
        match &self.keys {
            Keys::Few => has_key(pairs, key),
            Keys::Numbered(places) => stands_at(pairs, key, places.get(&number_of(key)).copied()),
            Keys::Ordered(keys) => keys.contains(key),
        }
    }

    /// The pairs with one more behind them.
    pub fn with(self, alloc: Global, pair: NodePair) -> Result<Pairs, Memory>
        ensures { IfOk result (λ more. more.pairs ≡ self.pairs ++ pair ∷ []) }
    {
        let mut more = self;
        more.push(alloc, pair)?;
        Ok(more)
    }

    /// Puts one more behind them.
    pub fn push(&mut self, alloc: Global, pair: NodePair) -> Result<(), Memory>
        ensures { OnOk result (self.new.pairs ≡ self.old.pairs ++ pair ∷ []) }
    {
        let before = mem::replace(&mut self.keys, Keys::Few);
        let keys = before.with(alloc, self.pairs.as_slice(), &pair.key)?;
        self.pairs.push(pair)?;
        self.keys = keys;
        Ok(())
    }

    /// The pairs as a list.
    pub fn into_pairs(self) -> ItemList<NodePair>
        ensures { result ≡ self.pairs }
    {
        let Pairs { pairs, keys: _ } = self;
        pairs
    }
}

fn begins_with_expression(key: &Text) -> bool
    ensures { result ≡ starts_with nat_eq key.now (codes "${{") }
{
    key.as_bytes().starts_with(b"${{")
}
