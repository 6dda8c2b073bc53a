ghost use Rattle.std.specs.Prelude.{◌≡◌, true, cond, OnOk};
ghost use Rattle.pl_log.specs.Keys.{SecondNamed, same_second, second_seen};
ghost use Rattle.pl_log.specs.Rows.{has_second_row_at, second_number_at};

use crate::key::SecondKey;
use crate::table::{Table, make_copied};
use pl_base::{Memory, Text};
use std::alloc::Global;

/// A number for each second key: that of the latest item about it, counted from 1, or 0.
#[derive(Drop)]
pub(crate) struct SecondRows {
    tokens: Table<[u8; 32]>,
    takers: Table<Text>,
    queue: u32,
}

impl SecondRows {
    /// All keys have 0. It takes no memory.
    pub(crate) fn new(alloc: Global) -> SecondRows
        ensures { (key : SecondNamed) → second_number_at result key ≡ 0 }
    {
        SecondRows {
            tokens: Table::new(alloc),
            takers: Table::new(alloc),
            queue: 0,
        }
    }

    /// The number of a key.
    pub(crate) fn number(&self, key: SecondKey<'_>) -> u32
        ensures { result ≡ second_number_at self.now (second_seen key.entry) }
    {
        match key {
            SecondKey::Token(digest) => self.tokens.number(&digest.bytes),
            SecondKey::Taker(name) => self.takers.number(name),
            SecondKey::Queue => self.queue,
        }
    }

    /// Makes a row for a key that has none. All numbers stay as they are, also after Memory.
    pub(crate) fn make_row(&mut self, alloc: Global, key: SecondKey<'_>) -> Result<(), Memory>
        ensures same { (other : SecondNamed) →
            second_number_at self.new other ≡ second_number_at self.old other }
        ensures ok { OnOk result (has_second_row_at self.new (second_seen key.entry) ≡ true) }
    {
        match key {
            SecondKey::Token(digest) => self.tokens.make_row(digest.bytes),
            SecondKey::Taker(name) => make_copied(alloc, &mut self.takers, name),
            SecondKey::Queue => Ok(()),
        }
    }

    /// Changes the number of a key that has a row. It takes no memory.
    pub(crate) fn set(&mut self, key: SecondKey<'_>, number: u32)
        requires { has_second_row_at self.old (second_seen key) ≡ true }
        ensures { (other : SecondNamed) → second_number_at self.new other ≡
            cond (same_second (second_seen key.entry) other) number
            (second_number_at self.old other) }
    {
        match key {
            SecondKey::Token(digest) => self.tokens.set(&digest.bytes, number),
            SecondKey::Taker(name) => self.takers.set(name, number),
            SecondKey::Queue => self.queue = number,
        }
    }
}
