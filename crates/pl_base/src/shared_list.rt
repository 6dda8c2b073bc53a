ghost use Rattle.std.specs.Prelude.{◌≡◌, [], ◌∷◌, ◌++◌, IfOk, OnOk, map};
ghost use Rattle.std.specs.Cmp.Lexicographic.{pointwise, lists_per, lists_equiv};
ghost use Rattle.pl_base.specs.Chains.{in_order};

use crate::exact_copy::ExactCopy;
use crate::memory::Memory;
use crate::shared::Shared;
use std::alloc::Global;
use std::marker::Model;

/// Items in order, which contracts see as the list of them. Lists that begin alike share what they
/// have in common: a list with one item more, and a copy, take constant time and memory.
#[derive(Debug, Drop)]
pub struct SharedList<T> {
    chain: Shared<Chain<T>>,
}

/// A list from its end: what comes before its last item, and that item.
#[cycle(chain)]
#[derive(Debug, Drop)]
enum Chain<T> {
    Start,
    Then(Shared<Chain<T>>, T),
}

impl<T> Model for SharedList<T> {
    ghost use Rattle.std.specs.Prelude.{List as list};
    ghost use Rattle.std.specs.Coded.{coded_list};
    ghost use Rattle.pl_base.specs.Chains.{in_order};

    ghost Value = { list T };

    ghost coded = { coded_list T.code };

    ghost view = { λ list. in_order list.chain };
}

impl<T: Drop> SharedList<T> {
    /// No items.
    pub fn new(alloc: Global) -> Result<SharedList<T>, Memory>
        ensures { IfOk result (λ list. list ≡ []) }
    {
        let chain = Shared::new(alloc, Chain::Start)?;
        Ok(SharedList { chain })
    }

    /// These items and one more behind them. Memory drops that item.
    pub fn with(&self, alloc: Global, item: T) -> Result<SharedList<T>, Memory>
        ensures { IfOk result (λ list. list ≡ self.now ++ item ∷ []) }
    {
        let before = self.chain.copy(alloc)?;
        let chain = Shared::new(alloc, Chain::Then(before, item))?;
        Ok(SharedList { chain })
    }

    /// The items, the first one in front.
    pub fn to_vec(&self, alloc: Global) -> Result<Vec<&T>, Memory>
        ensures { IfOk result (λ items. map (λ item. item.now) items.items ≡ self.now) }
    {
        let mut items = Vec::new(alloc);
        put_all(&self.chain, &mut items)?;
        Ok(items)
    }
}

/// Puts a chain's items behind the last one.
fn put_all<'a, T>(chain: &'a Chain<T>, items: &mut Vec<&'a T>) -> Result<(), Memory>
    ensures { OnOk result (map (λ item. item.now) items.new.items ≡
        map (λ item. item.now) items.old.items ++ in_order chain.now) }
{
    if let Chain::Then(before, last) = chain {
        put_all(before, items)?;
        items.push(last)?;
    }
    Ok(())
}

/// Whether two chains have the same items.
fn same_items<T: PartialEq>(left: &Chain<T>, right: &Chain<T>) -> bool
    ensures { result ≡ pointwise T.eq (in_order left.now) (in_order right.now) }
{
    match (left, right) {
        (Chain::Start, Chain::Start) => true,
        (Chain::Then(before, last), Chain::Then(other_before, other_last)) => {
            last == other_last && same_items(before, other_before)
        }
        _ => false,
    }
}

impl<T: Drop> ExactCopy for SharedList<T> {
    fn copy(&self, alloc: Global) -> Result<SharedList<T>, Memory> {
        let chain = self.chain.copy(alloc)?;
        Ok(SharedList { chain })
    }
}

impl<T: PartialEq> PartialEq for SharedList<T> {
    ghost eq = { pointwise T.eq };

    ghost laws = { lists_per T.PartialEq.laws };

    fn eq(&self, other: &SharedList<T>) -> bool {
        same_items(&self.chain, &other.chain)
    }
}

impl<T: Eq> Eq for SharedList<T> {
    ghost laws = { lists_equiv T.Eq.laws };
}
