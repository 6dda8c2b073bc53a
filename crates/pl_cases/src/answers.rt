use pl_base::{Bytes, List, Memory, Shared, Text};
use std::alloc::Global;

/// The answers so far. Where memory was wanting they aren't whole, and what stands in them counts
/// for nothing: so what writes answers, or makes a value for them, need not answer want of memory
/// itself.
#[derive(Drop)]
pub struct Answers {
    alloc: Global,
    text: Text,
    whole: bool,
}

impl Answers {
    /// No answer yet. The answers take their memory, and that of the values made for them, from
    /// here.
    pub fn new(alloc: Global) -> Answers {
        Answers {
            alloc,
            text: Text::new(alloc),
            whole: true,
        }
    }

    /// Where values take their memory from.
    pub fn alloc(&self) -> Global {
        self.alloc
    }

    /// Writes a text.
    pub fn push(&mut self, text: &str) {
        if self.text.push_str(text).is_err() {
            self.fail();
        }
    }

    /// Writes a character.
    pub fn character(&mut self, character: char) {
        let mut buffer = [0; 4];
        self.push(character.encode_utf8(&mut buffer))
    }

    /// Writes a line of two texts.
    pub fn line(&mut self, front: &str, rest: &str) {
        self.push(front);
        self.push(rest);
        self.push("\n")
    }

    /// Writes a number in decimal digits.
    pub fn number(&mut self, alloc: Global, number: u64) {
        match number.to_string(alloc) {
            Ok(digits) => self.push(digits.as_str()),
            Err(_) => self.fail(),
        }
    }

    /// Writes a space and a word.
    pub fn push_word(&mut self, word: &str) {
        self.push(" ");
        self.push(word)
    }

    /// Writes a space and a number.
    pub fn push_number(&mut self, number: u64) {
        let alloc = self.alloc;
        self.push(" ");
        self.number(alloc, number)
    }

    /// Says that memory was wanting.
    pub fn fail(&mut self) {
        self.whole = false;
    }

    /// What was made, or None where memory was wanting, which it notes.
    pub fn made<T>(&mut self, made: Result<T, Memory>) -> Option<T> {
        match made {
            Ok(made) => Some(made),
            Err(_) => {
                self.fail();
                None
            }
        }
    }

    /// Notes whether what was done had memory.
    pub fn done(&mut self, done: Result<(), Memory>) {
        if done.is_err() {
            self.fail();
        }
    }

    /// A word as a text of its own; the empty one where memory was wanting, which it notes.
    pub fn text_of(&mut self, word: &str) -> Text {
        match Text::from_str(self.alloc, word) {
            Ok(text) => text,
            Err(_) => {
                self.fail();
                Text::new(self.alloc)
            }
        }
    }

    /// The same of bytes.
    pub fn bytes_of(&mut self, word: &str) -> Bytes {
        self.list_of(word.as_bytes())
    }

    /// The same of a list.
    pub fn list_of<T: Copy>(&mut self, items: &[T]) -> List<T> {
        match List::from_slice(self.alloc, items) {
            Ok(list) => list,
            Err(_) => {
                self.fail();
                List::new(self.alloc)
            }
        }
    }

    /// A value that may be shared, or None where memory was wanting, which it notes.
    pub fn shared<T: Drop>(&mut self, value: T) -> Option<Shared<T>> {
        let shared = Shared::new(self.alloc, value);
        self.made(shared)
    }

    /// All answers.
    pub fn text(&self) -> Result<&str, Memory> {
        if self.whole {
            Ok(self.text.as_str())
        } else {
            Err(Memory)
        }
    }
}
