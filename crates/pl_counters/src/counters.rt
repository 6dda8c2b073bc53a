ghost use Rattle.std.specs.Prelude.{◌≡◌, ◌<◌, ◌++◌, ◌∷◌, [], false, true, length};
ghost use Rattle.std.specs.Prelude.{slice_index_or, slice_set, OnErr, OnOk};
ghost use Rattle.pl_counters.specs.Counting.{has_ended, left_of};

use crate::counting::{has_ended, left_of, lower};
use pl_base::{List, Memory};
use std::alloc::Global;
use std::marker::Model;

/// Nodes that wait for others, by their places from 0, with a counter each of those among these
/// that haven't ended.
///
/// Contracts see for which each waits, doubles among them, and whether it has ended.
#[derive(Drop)]
pub struct Counters {
    lists: Vec<List<u32>>,
    left: Vec<usize>,
    ended: Vec<bool>,
}

impl Model for Counters {
    ghost use Rattle.pl_counters.specs.Counting.{AreCounted, Waits};

    ghost Value = { Waits };

    ghost view = { λ counters. record {
      lists = counters.lists.items;
      ended = counters.ended.items;
    } };

    ghost invariant = { λ counters.
        AreCounted counters.lists.items counters.left.items counters.ended.items };
}

impl Counters {
    /// No node. It takes no memory.
    pub fn new(alloc: Global) -> Counters
        ensures { result ≡ record { lists = []; ended = [] } }
    {
        Counters {
            lists: Vec::new(alloc),
            left: Vec::new(alloc),
            ended: Vec::new(alloc),
        }
    }

    /// One node more, which waits for these, some of which may come later, and hasn't ended. After
    /// Memory all is as before.
    pub fn add(&mut self, waits: List<u32>) -> Result<(), Memory>
        ensures ok { OnOk result (self.new ≡ record {
          lists = self.old.lists ++ waits ∷ [];
          ended = self.old.ended ++ false ∷ [];
        }) }
        ensures err { OnErr result (self.new ≡ self.old) }
    {
        self.lists.reserve(1)?;
        self.left.reserve(1)?;
        self.ended.reserve(1)?;
        let left = left_of(self.ended.as_slice(), waits.as_slice());
        self.lists.push_reserved(waits);
        self.left.push_reserved(left);
        self.ended.push_reserved(false);
        Ok(())
    }

    /// Makes a node end, at once with all counters of those that wait for it. It takes no memory.
    pub fn end(&mut self, node: u32)
        requires { node < length self.old.ended }
        ensures { self.new ≡ record self.old { ended = slice_set self.old.ended node true } }
    {
        if !self.ended[node as usize] {
            lower(self.lists.as_slice(), node, self.left.as_mut_slice());
            self.ended[node as usize] = true;
        }
    }

    /// Whether a node has ended.
    pub fn has_ended(&self, node: u32) -> bool
        ensures { result ≡ has_ended self.now.ended node }
    {
        has_ended(self.ended.as_slice(), node)
    }

    /// How many of those for which a node waits haven't ended.
    pub fn left(&self, node: u32) -> usize
        requires { node < length self.now.lists }
        ensures { result ≡ left_of self.now.ended (slice_index_or self.now.lists node []) }
    {
        self.left[node as usize]
    }
}
