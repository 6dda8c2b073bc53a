ghost use Rattle.std.specs.Prelude.{◌≡◌, ◌≤◌, [], ◌++◌, length, drop, OnOk, OnErr, ◌↔◌, IsTrue};

use pl_base::Memory;
use std::alloc::Global;
use std::marker::Model;

/// Bytes that were read and aren't yet taken, in order.
#[derive(Debug, Drop)]
pub struct Buffer {
    bytes: Vec<u8>,
    taken: usize,
}

impl Model for Buffer {
    ghost use Rattle.std.specs.Prelude.{List, ℕ, drop, vec_len, ◌≤◌};

    ghost Value = { List ℕ };

    ghost view = { λ buffer. drop buffer.taken buffer.bytes.items };

    ghost invariant = { λ buffer. buffer.taken ≤ vec_len buffer.bytes };
}

impl Buffer {
    /// No bytes.
    pub fn new(alloc: Global) -> Buffer
        ensures { result ≡ [] }
    {
        Buffer {
            bytes: Vec::new(alloc),
            taken: 0,
        }
    }

    /// How many bytes there are.
    pub fn len(&self) -> usize
        ensures { result ≡ length self.now }
    {
        self.as_slice().len()
    }

    /// Whether there is no byte.
    pub fn is_empty(&self) -> bool
        ensures { IsTrue result ↔ (self.now ≡ []) }
    {
        self.as_slice().is_empty()
    }

    /// The bytes.
    pub fn as_slice(&self) -> &[u8]
        ensures { result.now ≡ self.now }
    {
        self.bytes.as_slice().split_at(self.taken).1
    }

    /// Takes so many bytes off the front.
    pub fn take(&mut self, count: usize)
        requires { count ≤ length self.old }
        ensures { self.new ≡ drop count self.old }
    {
        self.taken += count;
    }

    /// Puts bytes behind the last one. After Memory the bytes are as before.
    pub fn push(&mut self, piece: &[u8]) -> Result<(), Memory>
        ensures ok { OnOk result (self.new ≡ self.old ++ piece.now) }
        ensures err { OnErr result (self.new ≡ self.old) }
    {
        self.close_up();
        self.bytes.extend_from_slice(piece)?;
        Ok(())
    }

    // Gives back the room of the bytes that were taken.
    fn close_up(&mut self)
        ensures { self.new ≡ self.old }
    {
        if self.taken > 0 {
            let left = self.bytes.len() - self.taken;
            self.bytes.rotate_left(self.taken);
            self.bytes.truncate(left);
            self.taken = 0;
        }
    }
}
