ghost use Rattle.std.specs.Prelude.{◌≡◌, ◌++◌, ◌∷◌, [], ◌-◌, true, cond, length, take, OnErr, OnOk};
ghost use Rattle.pl_log.specs.Keys.{Named, SecondNamed};
ghost use Rattle.pl_log.specs.Kept.{IsKept, has_second_row, is_about, is_also_about, items_of};
ghost use Rattle.pl_log.specs.Kept.{link_of, second_number};
ghost use Rattle.pl_log.specs.Rows.{has_row_at, number_at, second_number_at};

use crate::keyed::Keyed;
use crate::rows::Rows;
use crate::second_rows::SecondRows;
use pl_base::Memory;
use std::alloc::Global;

/// An item, and for each of its keys the number of the latest item before it about that key.
#[derive(Drop)]
pub(crate) struct Kept<T> {
    pub(crate) item: T,
    before: u32,
    second_before: u32,
}

/// Which of an item's two numbers leads on.
#[derive(Clone, Copy)]
pub(crate) enum Link {
    First,
    Second,
}

impl<T> Kept<T> {
    /// The number that leads on.
    pub(crate) fn link(&self, link: Link) -> u32
        ensures { result ≡ link_of link self.now }
    {
        match link {
            Link::First => self.before,
            Link::Second => self.second_before,
        }
    }
}

/// Makes the rows of an item's keys. All numbers stay as they are, also after Memory.
fn make_rows<T: Keyed>(
    alloc: Global,
    rows: &mut Rows,
    second_rows: &mut SecondRows,
    item: &T,
) -> Result<(), Memory>
    ensures same { (key : Named) → number_at rows.new key ≡ number_at rows.old key }
    ensures second_same { (key : SecondNamed) →
        second_number_at second_rows.new key ≡ second_number_at second_rows.old key }
    ensures ok { OnOk result (has_row_at rows.new (T.named item.now) ≡ true) }
    ensures second_ok { OnOk result (has_second_row second_rows.new (T.second item.now) ≡ true) }
{
    rows.make_row(alloc, item.key())?;
    match item.second_key() {
        Some(key) => second_rows.make_row(alloc, key),
        None => Ok(()),
    }
}

/// Gives an item's key this number, and tells the one that it had. It takes no memory.
fn replace<T: Keyed>(rows: &mut Rows, item: &T, number: u32) -> u32
    requires { has_row_at rows.old (T.named item.now) ≡ true }
    ensures before { result ≡ number_at rows.old (T.named item.now) }
    ensures after { (key : Named) → number_at rows.new key ≡
        cond (is_about T.named key item.now) number (number_at rows.old key) }
{
    let before = rows.number(item.key());
    rows.set(item.key(), number);
    before
}

/// The same of what an item is about besides; 0 where that is nothing.
fn replace_second<T: Keyed>(rows: &mut SecondRows, item: &T, number: u32) -> u32
    requires { has_second_row rows.old (T.second item.now) ≡ true }
    ensures before { result ≡ second_number rows.old (T.second item.now) }
    ensures after { (key : SecondNamed) → second_number_at rows.new key ≡
        cond (is_also_about T.second key item.now) number (second_number_at rows.old key) }
{
    match item.second_key() {
        Some(key) => {
            let before = rows.number(key);
            rows.set(key, number);
            before
        }
        None => 0,
    }
}

/// Puts an item behind the others. After Memory the items are as before, and this one is dropped.
pub(crate) fn push<T: Keyed>(
    kept: &mut Vec<Kept<T>>,
    rows: &mut Rows,
    second_rows: &mut SecondRows,
    item: T,
) -> Result<(), Memory>
    requires { IsKept T.named T.second rows.old second_rows.old kept.old.items }
    ensures kept { IsKept T.named T.second rows.new second_rows.new kept.new.items }
    ensures ok { OnOk result (items_of kept.new.items ≡ items_of kept.old.items ++ item ∷ []) }
    ensures err { OnErr result (items_of kept.new.items ≡ items_of kept.old.items) }
{
    let alloc = *kept.allocator();
    kept.reserve(1)?;
    let Ok(number) = u32::try_from(kept.len() + 1) else {
        return Err(Memory);
    };
    make_rows(alloc, rows, second_rows, &item)?;
    let before = replace(rows, &item, number);
    let second_before = replace_second(second_rows, &item, number);
    kept.push_reserved(Kept {
        item,
        before,
        second_before,
    });
    Ok(())
}

/// Takes the last item away, if there is one. It takes no memory.
pub(crate) fn pop<T: Keyed>(kept: &mut Vec<Kept<T>>, rows: &mut Rows, second_rows: &mut SecondRows)
    requires { IsKept T.named T.second rows.old second_rows.old kept.old.items }
    ensures kept { IsKept T.named T.second rows.new second_rows.new kept.new.items }
    ensures items { items_of kept.new.items ≡
        take (length kept.old.items - 1) (items_of kept.old.items) }
{
    if let Some(last) = kept.pop() {
        replace(rows, &last.item, last.before);
        replace_second(second_rows, &last.item, last.second_before);
    }
}

/// Takes all items behind the first so many away. It takes no memory.
pub(crate) fn cut<T: Keyed>(
    kept: &mut Vec<Kept<T>>,
    rows: &mut Rows,
    second_rows: &mut SecondRows,
    len: usize,
)
    requires { IsKept T.named T.second rows.old second_rows.old kept.old.items }
    ensures kept { IsKept T.named T.second rows.new second_rows.new kept.new.items }
    ensures items { items_of kept.new.items ≡ take len (items_of kept.old.items) }
{
    while kept.len() > len {
        pop(kept, rows, second_rows);
    }
}
