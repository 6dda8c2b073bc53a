ghost use Rattle.std.specs.Prelude.{◌≡◌, true, cond, OnOk};
ghost use Rattle.std.specs.BTreeMap.{is_at};
ghost use Rattle.pl_log.specs.Tables.{has_row, row};

use pl_base::{ExactCopy, Memory};
use std::alloc::Global;
use std::collections::BTreeMap;

/// A number for each key. A key without a row has 0.
#[derive(Drop)]
pub(crate) struct Table<K: Ord + Drop> {
    rows: BTreeMap<K, u32>,
}

impl<K: Ord + Drop> Table<K> {
    /// All keys have 0. It takes no memory.
    pub(crate) fn new(alloc: Global) -> Table<K>
        ensures { (key : K) → row K.cmp result.rows key ≡ 0 }
    {
        Table {
            rows: BTreeMap::new(alloc),
        }
    }

    /// The number of a key.
    pub(crate) fn number(&self, key: &K) -> u32
        ensures { result ≡ row K.cmp self.now.rows key.now }
    {
        match self.rows.get(key) {
            Some(number) => *number,
            None => 0,
        }
    }

    /// Whether a key has a row.
    pub(crate) fn has(&self, key: &K) -> bool
        ensures { result ≡ has_row K.cmp self.now.rows key.now }
    {
        self.rows.contains_key(key)
    }

    /// Makes a row for a key that has none. All numbers stay as they are, also after Memory.
    pub(crate) fn make_row(&mut self, key: K) -> Result<(), Memory>
        ensures same { (other : K) → row K.cmp self.new.rows other ≡ row K.cmp self.old.rows other }
        ensures ok { OnOk result (has_row K.cmp self.new.rows key ≡ true) }
    {
        if !self.has(&key) {
            self.rows.insert(key, 0)?;
        }
        Ok(())
    }

    /// Changes the number of a key that has a row. It takes no memory.
    pub(crate) fn set(&mut self, key: &K, number: u32)
        requires { has_row K.cmp self.old.rows key.now ≡ true }
        ensures { (other : K) → row K.cmp self.new.rows other ≡
            cond (is_at (K.cmp key.now) other) number (row K.cmp self.old.rows other) }
    {
        if let Some(kept) = self.rows.get_mut(key) {
            *kept = number;
        }
    }
}

/// The same with a key that is copied where it has no row.
pub(crate) fn make_copied<K: Ord + ExactCopy>(
    alloc: Global,
    table: &mut Table<K>,
    key: &K,
) -> Result<(), Memory>
    ensures same { (other : K) → row K.cmp table.new.rows other ≡ row K.cmp table.old.rows other }
    ensures ok { OnOk result (has_row K.cmp table.new.rows key.now ≡ true) }
{
    if !table.has(key) {
        table.make_row(key.copy(alloc)?)?;
    }
    Ok(())
}
