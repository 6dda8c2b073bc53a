ghost use Rattle.std.specs.Prelude.{◌≡◌, true, cond, OnOk};
ghost use Rattle.pl_log.specs.Tables.{has_place, place};

use pl_base::Memory;
use std::alloc::Global;
use std::collections::HashMap;
use std::hash::Hash;

/// A number for each key, of which as many steps find one among many as among few. A key without a
/// row has 0.
#[derive(Drop)]
pub(crate) struct Hashed<K: Eq + Hash + Drop> {
    rows: HashMap<K, u32>,
}

impl<K: Eq + Hash + Drop> Hashed<K> {
    /// All keys have 0. It takes no memory.
    pub(crate) fn new(alloc: Global) -> Hashed<K>
        ensures { (key : K) → place K.eq result.rows key ≡ 0 }
    {
        Hashed {
            rows: HashMap::new(alloc),
        }
    }

    /// The number of a key.
    pub(crate) fn number(&self, key: &K) -> u32
        ensures { result ≡ place K.eq self.now.rows key.now }
    {
        match self.rows.get(key) {
            Some(number) => *number,
            None => 0,
        }
    }

    /// Makes a row for a key that has none. All numbers stay as they are, also after Memory.
    pub(crate) fn make_row(&mut self, key: K) -> Result<(), Memory>
        ensures same { (other : K) →
            place K.eq self.new.rows other ≡ place K.eq self.old.rows other }
        ensures ok { OnOk result (has_place K.eq self.new.rows key ≡ true) }
    {
        if !self.rows.contains_key(&key) {
            self.rows.insert(key, 0)?;
        }
        Ok(())
    }

    /// Changes the number of a key that has a row. It takes no memory.
    pub(crate) fn set(&mut self, key: &K, number: u32)
        requires { has_place K.eq self.old.rows key.now ≡ true }
        ensures { (other : K) → place K.eq self.new.rows other ≡
            cond (K.eq key.now other) number (place K.eq self.old.rows other) }
    {
        if let Some(kept) = self.rows.get_mut(key) {
            *kept = number;
        }
    }
}
