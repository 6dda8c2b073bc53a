ghost use Rattle.std.specs.Prelude.{◌≡◌, ◌≤◌, ◌&&◌, ◌++◌, ◌∷◌, [], Bool, IfOk, OnOk, cond, length};
ghost use Rattle.std.specs.Prelude.{map};
ghost use Rattle.std.specs.Option.{option_copied};
ghost use Rattle.pl_log.specs.Kept.{IsLinked, LeadsBack, item_of, items_of, link_of};
ghost use Rattle.pl_log.specs.Latest.{last_number, latest, latest_first};

use crate::kept::{Kept, Link};
use crate::keyed::Test;
use pl_base::Memory;
use std::alloc::Global;

/// The item to which a number leads, or None at 0.
pub(crate) fn latest_item<T>(kept: &[Kept<T>], from: u32) -> Option<&T>
    requires { from ≤ length kept.now }
    ensures { (test : T → Bool) → from ≡ last_number test (items_of kept.now) →
        option_copied result ≡ latest test (items_of kept.now) }
{
    if from == 0 {
        return None;
    }
    Some(&kept[from as usize - 1].item)
}

/// The latest item that passes a test, of those to which a number leads. The numbers that are
/// followed are those of the items that pass a wider test.
pub(crate) fn walk<'k, T, F: Test<T>>(
    kept: &'k [Kept<T>],
    link: Link,
    from: u32,
    test: &F,
) -> Option<&'k T>
    requires leads { LeadsBack (link_of link) kept.now }
    requires within { from ≤ length kept.now }
    ensures { (wider : T → Bool) → IsLinked item_of (link_of link) wider kept.now →
        from ≡ last_number wider (items_of kept.now) →
        option_copied result ≡
        latest (λ item. wider item && F.passes test.now item) (items_of kept.now) }
{
    let mut number = from;
    while number > 0 {
        let one = &kept[number as usize - 1];
        if test.passes(&one.item) {
            return Some(&one.item);
        }
        number = one.link(link);
    }
    None
}

/// All items that pass a test, the latest first, of those to which a number leads. The numbers that
/// are followed are those of the items that pass a wider test.
pub(crate) fn walk_all<'k, T, F: Test<T>>(
    alloc: Global,
    kept: &'k [Kept<T>],
    link: Link,
    from: u32,
    test: &F,
) -> Result<Vec<&'k T>, Memory>
    requires leads { LeadsBack (link_of link) kept.now }
    requires within { from ≤ length kept.now }
    ensures { (wider : T → Bool) → IsLinked item_of (link_of link) wider kept.now →
        from ≡ last_number wider (items_of kept.now) →
        IfOk result (λ found. map (λ item. item.now) found.items ≡
        latest_first (λ item. wider item && F.passes test.now item) (items_of kept.now)) }
{
    let mut found = Vec::new(alloc);
    let mut number = from;
    while number > 0 {
        let one = &kept[number as usize - 1];
        add_passing(&mut found, &one.item, test)?;
        number = one.link(link);
    }
    Ok(found)
}

/// Puts an item behind the others if it passes a test. What is left after Memory isn't told.
fn add_passing<'k, T, F: Test<T>>(
    found: &mut Vec<&'k T>,
    item: &'k T,
    test: &F,
) -> Result<(), Memory>
    ensures { OnOk result (map (λ one. one.now) found.new.items ≡
        map (λ one. one.now) found.old.items ++
        cond (F.passes test.now item.now) (item.now ∷ []) []) }
{
    if test.passes(item) {
        found.push(item)?;
    }
    Ok(())
}
