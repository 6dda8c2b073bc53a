ghost use Rattle.std.specs.Prelude.{◌≡◌, ◌≤◌, ◌==◌, [], ◌∷◌, length, take, drop, chars};
ghost use Rattle.std.specs.Prelude.{MatchOption, encode_utf8_all};
ghost use Rattle.pl_line.specs.Characters.{all_of};

use crate::characters::Characters;
use crate::tail::Tail;

impl<'t> Characters<'t> {
    /// How many they are.
    pub fn len(&self) -> usize
        ensures { result ≡ length (all_of self.now) }
    {
        self.len
    }

    /// Whether there is none.
    pub fn is_empty(&self) -> bool
        ensures { result ≡ length (all_of self.now) == 0 }
    {
        self.len == 0
    }

    /// The first one, or None where there is none.
    pub fn first(&self) -> Option<char>
        ensures { MatchOption result (all_of self.now ≡ []) (λ c. all_of self.now ≡ c ∷
            drop 1 (all_of self.now)) }
    {
        let mut rest = *self;
        rest.next()
    }

    /// Takes the first one off, or None where there is none.
    pub fn next(&mut self) -> Option<char>
        ensures { MatchOption result ((all_of self.old ≡ []) × (all_of self.new ≡ []))
            (λ c. all_of self.old ≡ c ∷ all_of self.new) }
    {
        if self.len == 0 {
            return None;
        }
        let mut rest = self.text.chars();
        let next = rest.next()?;
        *self = Characters {
            text: rest.as_str(),
            len: self.len - 1,
        };
        Some(next)
    }

    /// The first so many of them.
    pub fn front(&self, len: usize) -> Characters<'t>
        requires { len ≤ length (all_of self.now) }
        ensures { all_of result ≡ take len (all_of self.now) }
    {
        Characters {
            text: self.text,
            len,
        }
    }

    /// Those behind the first so many.
    pub fn behind(&self, len: usize) -> Characters<'t>
        requires { len ≤ length (all_of self.now) }
        ensures { all_of result ≡ drop len (all_of self.now) }
    {
        if len == self.len {
            return self.front(0);
        }
        let mut rest = Tail { text: self.text };
        for _ in 0..len {
            rest.next();
        }
        Characters {
            text: rest.text,
            len: self.len - len,
        }
    }

    /// The part of the text that they are.
    pub fn as_str(&self) -> &'t str
        ensures { result.now ≡ encode_utf8_all (all_of self.now) }
    {
        first_of(self.text, self.len)
    }
}

/// The first so many characters of a text.
fn first_of(text: &str, len: usize) -> &str
    requires { len ≤ length (chars text.now) }
    ensures { result.now ≡ encode_utf8_all (take len (chars text.now)) }
{
    let mut rest = Tail { text };
    for _ in 0..len {
        rest.next();
    }
    let bytes = text.len() - rest.text().len();
    &text[..bytes]
}

impl<'t> Tail<'t> {
    /// What is left.
    fn text(&self) -> &'t str
        ensures { result.now ≡ self.now.text.now }
    {
        self.text
    }

    /// Takes the first character off, or None where there is none.
    pub(crate) fn next(&mut self) -> Option<char>
        ensures { MatchOption result ((chars self.old.text.now ≡ []) ×
            (chars self.new.text.now ≡ [])) (λ c. chars self.old.text.now ≡ c ∷
            chars self.new.text.now) }
    {
        let mut rest = self.text.chars();
        let next = rest.next()?;
        *self = Tail {
            text: rest.as_str(),
        };
        Some(next)
    }
}
