ghost use Rattle.std.specs.Prelude.{ℕ, List, IsTrue};
ghost use Rattle.pl_wire.specs.Message.{IsPartial};
ghost use Rattle.pl_wire.specs.Waiting.{Awaits};

use pl_heads::{Front, read_head};
use pl_scan::Scanner;

/// What is known of a link's bytes while they only begin a message: so much that it is seen without
/// reading them again whether they still do when more came.
#[derive(Clone, Copy, Debug)]
pub enum Waiting {
    /// Their head isn't whole, as far as it was followed.
    Head(Scanner),
    /// Their head is whole, and with its content it has so many bytes.
    Content { least: usize },
}

impl Waiting {
    /// Nothing is known of any bytes.
    pub fn new() -> Waiting
        ensures { (bytes : List ℕ) → Awaits result bytes }
    {
        Waiting::Head(Scanner::new())
    }

    /// What is known of the bytes. It takes no memory.
    pub fn of(bytes: &[u8]) -> Waiting
        ensures { Awaits result bytes.now }
    {
        let mut scanner = Scanner::new();
        if scanner.advance(bytes) {
            return Waiting::Head(scanner);
        }
        match read_head(bytes) {
            Front::Whole(head) => Waiting::Content {
                least: head.len.saturating_add(head.content),
            },
            Front::Partial => Waiting::Head(scanner),
            Front::Bad(_) => Waiting::Head(scanner),
        }
    }

    /// Whether the bytes are known to begin a message that isn't whole. It goes over those bytes
    /// alone that it didn't go over before, and takes no memory. Where it answers false nothing is
    /// said of the bytes: then `next_request` judges them.
    pub fn goes_on(&mut self, bytes: &[u8]) -> bool
        requires { Awaits self.old bytes.now }
        ensures knows { Awaits self.new bytes.now }
        ensures partial { IsTrue result → IsPartial bytes.now }
    {
        match *self {
            Waiting::Head(mut scanner) => {
                let begun = scanner.advance(bytes);
                *self = Waiting::Head(scanner);
                begun
            }
            Waiting::Content { least } => bytes.len() < least,
        }
    }
}
