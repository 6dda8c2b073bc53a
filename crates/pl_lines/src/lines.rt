ghost use Rattle.std.specs.Prelude.{◌≡◌, ◌||◌, ◌&&◌, true, false, not, is_some, MatchOption};
ghost use Rattle.std.specs.Prelude.{OnErr, OnOk};
ghost use Rattle.std.specs.BTreeMap.{get};
ghost use Rattle.std.specs.BTreeSet.{contains};
ghost use Rattle.pl_lines.specs.Lines.{IsFirstIn, is_one, stands};

use pl_base::{ExactCopy, Memory};
use std::alloc::Global;
use std::collections::{BTreeMap, BTreeSet};

/// Places in order, in a line for each key. A key without places has an empty line.
///
/// Contracts see which places stand in which lines.
#[derive(Drop)]
pub struct Lines<K: Ord + ExactCopy, P: Ord + Drop> {
    lines: BTreeMap<K, BTreeSet<P>>,
}

impl<K: Ord + ExactCopy, P: Ord + Drop> Lines<K, P> {
    /// All lines are empty. It takes no memory.
    pub fn new(alloc: Global) -> Lines<K, P>
        ensures { (key : K) (place : P) → stands K.cmp P.cmp result.lines key place ≡ false }
    {
        Lines {
            lines: BTreeMap::new(alloc),
        }
    }

    /// Whether a place stands in a key's line.
    pub fn has(&self, key: &K, place: &P) -> bool
        ensures { result ≡ stands K.cmp P.cmp self.now.lines key.now place.now }
    {
        match self.lines.get(key) {
            Some(line) => line.contains(place),
            None => false,
        }
    }

    /// The first place in a key's line, or None where it is empty.
    pub fn first(&self, key: &K) -> Option<&P>
        ensures { MatchOption result
            ((place : P) → stands K.cmp P.cmp self.now.lines key.now place ≡ false)
            (λ first. IsFirstIn K.cmp P.cmp self.now.lines key.now first.now) }
    {
        match self.lines.get(key) {
            Some(line) => line.first(),
            None => None,
        }
    }

    /// A key's line, or None where none was made, so that no place stands in it.
    pub fn line(&self, key: &K) -> Option<&BTreeSet<P>>
        ensures { MatchOption result
            ((place : P) → stands K.cmp P.cmp self.now.lines key.now place ≡ false)
            (λ line. (place : P) → stands K.cmp P.cmp self.now.lines key.now place ≡
            contains P.cmp line.now place) }
    {
        self.lines.get(key)
    }

    /// Makes room for a key's line. In the lines the same places stand, also after Memory.
    fn make_line(&mut self, alloc: Global, key: &K) -> Result<(), Memory>
        ensures same { (other : K) (place : P) → stands K.cmp P.cmp self.new.lines other place ≡
            stands K.cmp P.cmp self.old.lines other place }
        ensures ok { OnOk result (is_some (get K.cmp self.new.lines key.now) ≡ true) }
    {
        if !self.lines.contains_key(key) {
            let own = key.copy(alloc)?;
            self.lines.insert(own, BTreeSet::new(alloc))?;
        }
        Ok(())
    }

    /// Puts a place into a key's line, unless it stands there. After Memory the same places stand
    /// in the lines as before.
    pub fn add(&mut self, alloc: Global, key: &K, place: P) -> Result<(), Memory>
        ensures ok { OnOk result ((other : K) (p : P) → stands K.cmp P.cmp self.new.lines other p ≡
            (stands K.cmp P.cmp self.old.lines other p ||
            is_one K.cmp P.cmp key.now place other p)) }
        ensures err { OnErr result ((other : K) (p : P) →
            stands K.cmp P.cmp self.new.lines other p ≡
            stands K.cmp P.cmp self.old.lines other p) }
    {
        self.make_line(alloc, key)?;
        if let Some(line) = self.lines.get_mut(key) {
            line.insert(place)?;
        }
        Ok(())
    }

    /// Takes a place out of a key's line, where it stands there. It takes no memory.
    pub fn take(&mut self, key: &K, place: &P)
        ensures { (other : K) (p : P) → stands K.cmp P.cmp self.new.lines other p ≡
            (stands K.cmp P.cmp self.old.lines other p &&
            not (is_one K.cmp P.cmp key.now place.now other p)) }
    {
        if let Some(line) = self.lines.get_mut(key) {
            line.remove(place);
        }
    }
}
