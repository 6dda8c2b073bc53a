ghost use Rattle.std.specs.Prelude.{◌≡◌, ◌++◌, ◌∷◌, [], ◌&&◌, true, length, map, take, slice_get};
ghost use Rattle.std.specs.Prelude.{IfOk, OnErr, OnOk};
ghost use Rattle.std.specs.Option.{option_copied};
ghost use Rattle.pl_log.specs.Keys.{seen, second_seen};
ghost use Rattle.pl_log.specs.Kept.{is_about, is_also_about};
ghost use Rattle.pl_log.specs.Latest.{latest, latest_first};

use crate::kept::{Kept, Link, cut, push};
use crate::key::{Key, SecondKey};
use crate::keyed::{Keyed, Test};
use crate::rows::Rows;
use crate::second_rows::SecondRows;
use crate::walking::{latest_item, walk, walk_all};
use pl_base::Memory;
use std::alloc::Global;
use std::marker::Model;

/// Items in order, of which the last can be taken away until they are installed.
///
/// The latest item about a key is found without a look at the others: a look-up costs what the
/// items about its key do, and no more where the log has more.
#[derive(Drop)]
pub struct Log<T: Keyed> {
    kept: Vec<Kept<T>>,
    rows: Rows,
    second_rows: SecondRows,
    installed: usize,
}

impl<T: Keyed> Model for Log<T> {
    ghost use Rattle.std.specs.Prelude.{◌≤◌, length as len};
    ghost use Rattle.pl_log.specs.Kept.{IsKept, items_of};
    ghost use Rattle.pl_log.specs.Logged.{Logged};

    ghost Value = { Logged T };

    ghost view = { λ log. record {
      items = items_of log.kept.items;
      installed = log.installed;
    } };

    ghost invariant = { λ log. IsKept T.named T.second log.rows log.second_rows log.kept.items ×
        (log.installed ≤ len log.kept.items) };
}

impl<T: Keyed> Log<T> {
    /// No items. It takes no memory until the first item comes.
    pub fn new(alloc: Global) -> Log<T>
        ensures items { result.items ≡ [] }
        ensures installed { result.installed ≡ 0 }
    {
        Log {
            kept: Vec::new(alloc),
            rows: Rows::new(alloc),
            second_rows: SecondRows::new(alloc),
            installed: 0,
        }
    }

    /// How many items there are.
    pub fn len(&self) -> usize
        ensures { result ≡ length self.now.items }
    {
        self.kept.len()
    }

    /// The item at a place from 0, or None where the log is no longer than that.
    pub fn get(&self, at: usize) -> Option<&T>
        ensures { option_copied result ≡ slice_get self.now.items at }
    {
        match self.kept.get(at) {
            Some(one) => Some(&one.item),
            None => None,
        }
    }

    /// The last item, or None where there is none. It takes no memory.
    pub fn last(&self) -> Option<&T>
        ensures { option_copied result ≡ latest (λ _. true) self.now.items }
    {
        let kept = self.kept.as_slice();
        latest_item(kept, kept.len() as u32)
    }

    /// Puts an item behind the others. After Memory the log is as before, and the item is dropped;
    /// a log has fewer than 2^32 items, and one more is want of memory.
    pub fn push(&mut self, item: T) -> Result<(), Memory>
        ensures ok { OnOk result (self.new ≡
            record self.old { items = self.old.items ++ item ∷ [] }) }
        ensures err { OnErr result (self.new ≡ self.old) }
    {
        push(&mut self.kept, &mut self.rows, &mut self.second_rows, item)
    }

    /// Takes the items away that aren't installed. It takes no memory.
    pub fn back_to_installed(&mut self)
        ensures { self.new ≡
            record self.old { items = take self.old.installed self.old.items } }
    {
        let installed = self.installed;
        cut(
            &mut self.kept,
            &mut self.rows,
            &mut self.second_rows,
            installed,
        );
    }

    /// Installs all items. It takes no memory.
    pub fn install(&mut self)
        ensures { self.new ≡ record self.old { installed = length self.old.items } }
    {
        self.installed = self.kept.len();
    }

    /// The latest item about a key. It takes no memory.
    pub fn latest(&self, key: Key<'_>) -> Option<&T>
        ensures { option_copied result ≡
            latest (is_about T.named (seen key.entry)) self.now.items }
    {
        let from = self.rows.number(key);
        latest_item(self.kept.as_slice(), from)
    }

    /// The latest item about a key that passes a test. It takes no memory.
    pub fn latest_of<F: Test<T>>(&self, key: Key<'_>, test: &F) -> Option<&T>
        ensures { option_copied result ≡
            latest (λ item. is_about T.named (seen key.entry) item && F.passes test.now item)
            self.now.items }
    {
        let from = self.rows.number(key);
        walk(self.kept.as_slice(), Link::First, from, test)
    }

    /// All items about a key that pass a test, the latest first.
    pub fn all_of<F: Test<T>>(
        &self,
        alloc: Global,
        key: Key<'_>,
        test: &F,
    ) -> Result<Vec<&T>, Memory>
        ensures { IfOk result (λ found. map (λ item. item.now) found.items ≡
            latest_first (λ item. is_about T.named (seen key.entry) item && F.passes test.now item)
            self.now.items) }
    {
        let from = self.rows.number(key);
        walk_all(alloc, self.kept.as_slice(), Link::First, from, test)
    }

    /// The latest item that is about a second key. It takes no memory.
    pub fn latest_second(&self, key: SecondKey<'_>) -> Option<&T>
        ensures { option_copied result ≡
            latest (is_also_about T.second (second_seen key.entry)) self.now.items }
    {
        let from = self.second_rows.number(key);
        latest_item(self.kept.as_slice(), from)
    }

    /// The latest item that is about a second key and passes a test. It takes no memory.
    pub fn latest_second_of<F: Test<T>>(&self, key: SecondKey<'_>, test: &F) -> Option<&T>
        ensures { option_copied result ≡
            latest (λ item. is_also_about T.second (second_seen key.entry) item &&
            F.passes test.now item) self.now.items }
    {
        let from = self.second_rows.number(key);
        walk(self.kept.as_slice(), Link::Second, from, test)
    }
}
