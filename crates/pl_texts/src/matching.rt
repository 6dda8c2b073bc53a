ghost use Rattle.std.specs.Prelude.{◌≡◌, length, IfOk};
ghost use Rattle.std.specs.Str.{chars};
ghost use Rattle.pl_base.specs.Folding.{folded};
ghost use Rattle.pl_texts.specs.Matching.{begins, ends, holds};

use pl_base::{Memory, Text};
use std::alloc::Global;

/// Whether the sought text stands anywhere in the text, the case of ASCII letters aside.
pub fn contains(alloc: Global, text: &Text, sought: &Text) -> Result<bool, Memory>
    ensures { IfOk result (λ found. found ≡ holds (folded text.now) (folded sought.now)) }
{
    let text = text.as_str().to_ascii_uppercase(alloc)?;
    let sought = sought.as_str().to_ascii_uppercase(alloc)?;
    Ok(occurs(text.as_str(), sought.as_str()))
}

/// Whether the sought text occurs in the text, by a search that goes over each once.
fn occurs(text: &str, sought: &str) -> bool
    ensures { result ≡ holds text.now sought.now }
{
    text.contains(sought)
}

/// Whether the text begins with the sought one, the case of ASCII letters aside. It takes no
/// memory.
pub fn starts_with(text: &Text, sought: &Text) -> bool
    ensures { result ≡ begins (folded text.now) (folded sought.now) }
{
    begins(text.as_bytes(), sought.as_bytes())
}

/// Whether the text ends with the sought one, the case of ASCII letters aside. It takes no memory.
pub fn ends_with(text: &Text, sought: &Text) -> bool
    ensures { result ≡ ends (folded text.now) (folded sought.now) }
{
    ends(text.as_bytes(), sought.as_bytes())
}

fn begins(bytes: &[u8], sought: &[u8]) -> bool
    ensures { result ≡ begins (folded bytes.now) (folded sought.now) }
{
    if bytes.len() < sought.len() {
        return false;
    }
    bytes[..sought.len()].eq_ignore_ascii_case(sought)
}

fn ends(bytes: &[u8], sought: &[u8]) -> bool
    ensures { result ≡ ends (folded bytes.now) (folded sought.now) }
{
    if bytes.len() < sought.len() {
        return false;
    }
    let (_front, end) = bytes.split_at(bytes.len() - sought.len());
    end.eq_ignore_ascii_case(sought)
}

/// How many characters, which are Unicode scalar values, the text has.
pub fn count(text: &Text) -> usize
    ensures { result ≡ length (chars text.now) }
{
    text.as_str().chars().count()
}
