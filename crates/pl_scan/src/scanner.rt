ghost use Rattle.std.specs.Prelude.{ℕ, List, IsTrue};
ghost use Rattle.pl_heads.specs.Heads.{IsPartialHead};
ghost use Rattle.pl_scan.specs.Scans.{Follows};

use crate::place::Place;
use crate::steps::after_byte;
use pl_heads::HEAD_LIMIT;

/// How far bytes were seen that come one after the other, and where in a head these end.
///
/// It goes over each byte once, whatever pieces they come in: a head isn't read again while it is
/// only begun.
#[derive(Clone, Copy, Debug)]
pub struct Scanner {
    place: Place,
    seen: usize,
}

impl Scanner {
    /// Nothing was seen of any bytes.
    pub fn new() -> Scanner
        ensures { (bytes : List ℕ) → Follows result bytes }
    {
        Scanner {
            place: Place::EmptyLines,
            seen: 0,
        }
    }

    /// Goes on over the bytes that weren't seen yet, of which those that were seen are a front.
    ///
    /// Where it answers true, the bytes are fewer than 16,384 and begin a head of `httparse`'s
    /// default rules (RFC 9112, sections 2 to 5): no front of them is a head, no 65th header line
    /// is whole, and more bytes can make a head of them. Where it answers false it stays in front
    /// of the byte that it doesn't go over: then a head is whole, or the bytes show a fault, and
    /// `pl_heads::read_head` says which. That it answers true wherever it may is tested alone.
    pub fn advance(&mut self, bytes: &[u8]) -> bool
        requires { Follows self.old bytes.now }
        ensures follows { Follows self.new bytes.now }
        ensures partial { IsTrue result → IsPartialHead bytes.now }
    {
        if bytes.len() >= HEAD_LIMIT {
            return false;
        }
        while self.seen < bytes.len() {
            let seen = bytes.split_at(self.seen).0;
            match after_byte(self.place, seen, bytes[self.seen]) {
                Some(place) => {
                    self.place = place;
                    self.seen += 1;
                }
                None => return false,
            }
        }
        true
    }
}
