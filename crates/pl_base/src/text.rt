ghost use Rattle.std.specs.Prelude.{◌≡◌, ◌++◌, [], true, nat_eq, length, string_bytes, ◌↔◌, IsTrue};
ghost use Rattle.std.specs.Prelude.{IfOk, OnOk, OnErr};
ghost use Rattle.std.specs.Str.{is_utf8};
ghost use Rattle.std.specs.Ordering.{nat_cmp, as_partial_cmp};
ghost use Rattle.std.specs.Cmp.{partial_order_from_own_ties};
ghost use Rattle.std.specs.Cmp.Lexicographic.{slice_cmp, pointwise};
ghost use Rattle.std.specs.Cmp.Rules.{comparing};
ghost use Rattle.std.proofs.Common.{rules};

use crate::exact_copy::ExactCopy;
use crate::memory::Memory;
use std::alloc::Global;
use std::cmp::Ordering;
use std::fmt;
use std::marker::Model;
use std::sync::Arc;

/// UTF-8 text, which contracts see as the list of its bytes. Copies of a text that is shared keep
/// its characters in one place.
pub struct Text {
    kept: Kept,
}

/// Where a text's characters are: its own, or shared with its copies.
#[derive(Drop)]
enum Kept {
    Own(String),
    Shared(Arc<String, Global>),
}

/// By hand: what is derived stands anew in each function that lets a text go, once for each way on
/// which it does, and this is one call.
impl Drop for Text {
    fn drop(self) {
        let Text { kept: _kept } = self;
    }
}

impl Model for Text {
    ghost use Rattle.std.specs.Prelude.{List as list, ℕ};
    ghost use Rattle.std.specs.Coded.{coded_list, coded_ℕ};
    ghost use Rattle.pl_base.specs.Texts.{bytes_of};

    ghost Value = { list ℕ };

    ghost coded = { coded_list coded_ℕ };

    ghost view = { λ text. bytes_of text.kept };
}

impl Text {
    /// The empty text. It takes no memory until something is added.
    pub fn new(alloc: Global) -> Text
        ensures { result ≡ [] }
    {
        Text {
            kept: Kept::Own(String::new(alloc)),
        }
    }

    /// A text of one's own with the same characters.
    pub fn from_str(alloc: Global, text: &str) -> Result<Text, Memory>
        ensures { IfOk result (λ copy. copy ≡ text.now) }
    {
        let own = String::from_str(alloc, text)?;
        Ok(Text::from_string(own))
    }

    /// The characters of a string, which it takes over. It takes no memory.
    pub fn from_string(own: String) -> Text
        ensures { result ≡ string_bytes own }
    {
        Text {
            kept: Kept::Own(own),
        }
    }

    /// A text of the same characters, whose copies share them. A shared text's characters aren't
    /// copied: sharing is about cost alone.
    pub fn shared(&self, alloc: Global) -> Result<Text, Memory>
        ensures { IfOk result (λ text. text ≡ self.now) }
    {
        let shared = match &self.kept {
            Kept::Own(own) => Arc::new(alloc, String::from_str(alloc, own.as_str())?)?,
            Kept::Shared(shared) => Arc::try_clone(shared)?,
        };
        let kept = Kept::Shared(shared);
        Ok(Text { kept })
    }

    /// The text as std's string slice.
    pub fn as_str(&self) -> &str
        ensures { result.now ≡ self.now }
    {
        match &self.kept {
            Kept::Own(own) => own.as_str(),
            Kept::Shared(shared) => shared.as_str(),
        }
    }

    /// The law that each text is UTF-8 (RFC 3629), wherever it comes from.
    pub fn each_is_utf8(&self)
        ensures { is_utf8 self.now ≡ true }
    {
        let _text = self.as_str();
    }

    /// The text's bytes.
    pub fn as_bytes(&self) -> &[u8]
        ensures { result.now ≡ self.now }
    {
        self.as_str().as_bytes()
    }

    /// How many bytes the text has.
    pub fn len(&self) -> usize
        ensures { result ≡ length self.now }
    {
        self.as_str().len()
    }

    /// Whether the text has no character.
    pub fn is_empty(&self) -> bool
        ensures { IsTrue result ↔ (self.now ≡ []) }
    {
        self.as_str().is_empty()
    }

    /// Adds characters at the end. After Memory the text is as before.
    pub fn push_str(&mut self, more: &str) -> Result<(), Memory>
        ensures ok { OnOk result (self.new ≡ self.old ++ more.now) }
        ensures err { OnErr result (self.new ≡ self.old) }
    {
        match &mut self.kept {
            Kept::Own(own) => own.push_str(more)?,
            Kept::Shared(shared) => Arc::make_mut(shared)?.push_str(more)?,
        }
        Ok(())
    }
}

impl fmt::Debug for Text {
    fn fmt<W: fmt::Write>(&self, f: &mut fmt::Formatter<W>) -> fmt::Result {
        fmt::Debug::fmt(self.as_str(), f)
    }
}

impl ExactCopy for Text {
    fn copy(&self, alloc: Global) -> Result<Text, Memory> {
        match &self.kept {
            Kept::Own(own) => Text::from_str(alloc, own.as_str()),
            Kept::Shared(shared) => {
                let kept = Kept::Shared(Arc::try_clone(shared)?);
                Ok(Text { kept })
            }
        }
    }
}

impl PartialEq for Text {
    ghost eq = { pointwise nat_eq };

    ghost laws = { Prim.search (comparing, rules) };

    fn eq(&self, other: &Text) -> bool {
        self.as_bytes() == other.as_bytes()
    }
}

impl Eq for Text {
    ghost laws = { Prim.search (comparing, rules) };
}

impl PartialOrd for Text {
    ghost partial_cmp = { as_partial_cmp (slice_cmp nat_cmp) };

    ghost laws = { partial_order_from_own_ties (Prim.search (comparing, rules))
        (Prim.search (comparing, rules)) };

    fn partial_cmp(&self, other: &Text) -> Option<Ordering> {
        Some(self.cmp(other))
    }
}

/// By their bytes.
impl Ord for Text {
    ghost cmp = { slice_cmp nat_cmp };

    ghost total = { Prim.search (comparing, rules) };

    ghost matches_partial_cmp = { Prim.search (comparing, rules) };

    ghost matches_eq = { Prim.search (comparing, rules) };

    fn cmp(&self, other: &Text) -> Ordering {
        self.as_bytes().cmp(other.as_bytes())
    }
}
