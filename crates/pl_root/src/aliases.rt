ghost use Rattle.std.specs.Prelude.{◌≡◌, ◌++◌, ◌∷◌, [], IfOk};
ghost use Rattle.std.specs.List.{list_any};
ghost use Rattle.pl_base.specs.Texts.{is};

use pl_base::{ExactCopy, List, Memory, Text};
use std::alloc::Global;
use std::collections::BTreeSet;
use std::marker::Model;

/// Aliases in their order, and the set of them, in which they are looked up.
#[derive(Drop)]
pub struct Aliases {
    all: List<Text>,
    set: BTreeSet<Text>,
}

impl Model for Aliases {
    ghost use Rattle.std.specs.Prelude.{◌≡◌, ℕ, List as list};
    ghost use Rattle.std.specs.BTreeSet.{contains};
    ghost use Rattle.std.specs.Cmp.Lexicographic.{slice_cmp};
    ghost use Rattle.std.specs.List.{list_any};
    ghost use Rattle.std.specs.Ordering.{nat_cmp};
    ghost use Rattle.pl_base.specs.Texts.{is};

    ghost Value = { list (list ℕ) };

    ghost view = { λ aliases. aliases.all };

    ghost invariant = { λ aliases. (alias : list ℕ) → contains (slice_cmp nat_cmp) aliases.set
        alias ≡ list_any (is alias) aliases.all };
}

impl Aliases {
    /// No aliases.
    pub fn new(alloc: Global) -> Aliases
        ensures { result ≡ [] }
    {
        Aliases {
            all: List::new(alloc),
            set: BTreeSet::new(alloc),
        }
    }

    /// Whether one of the aliases is that one.
    pub fn has(&self, alias: &Text) -> bool
        ensures { result ≡ list_any (is alias.now) self.now }
    {
        self.set.contains(alias)
    }

    /// The aliases, and one more behind them.
    pub fn with(self, alloc: Global, alias: &Text) -> Result<Aliases, Memory>
        ensures { IfOk result (λ more. more ≡ self ++ alias.now ∷ []) }
    {
        let Aliases { mut all, mut set } = self;
        set.insert(alias.copy(alloc)?)?;
        all.push(alias.copy(alloc)?)?;
        Ok(Aliases { all, set })
    }
}
