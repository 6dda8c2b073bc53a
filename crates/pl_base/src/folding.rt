ghost use Rattle.std.specs.Prelude.{◌≡◌, ◌↔◌, IsTrue, IfOk, string_bytes};
ghost use Rattle.pl_base.specs.Folding.{folded};

use crate::memory::Memory;
use crate::text::Text;
use std::alloc::Global;

/// Whether two texts are equal without regard to the case of ASCII's letters (RFC 20: A to Z are
/// 65 to 90, a to z are 97 to 122). It takes no memory.
#[tactic(auto, using(crate::proofs::Cases::alike))]
pub fn equals_ignoring_case(left: &Text, right: &Text) -> bool
    ensures { IsTrue result ↔ (folded left.now ≡ folded right.now) }
{
    left.as_str().eq_ignore_ascii_case(right.as_str())
}

/// A text in upper case, that of ASCII's letters: a to z become A to Z, and all else stays.
pub fn in_upper_case(alloc: Global, text: &Text) -> Result<String, Memory>
    ensures { IfOk result (λ upper. string_bytes upper ≡ folded text.now) }
{
    let mut upper = String::from_str(alloc, text.as_str())?;
    upper.make_ascii_uppercase();
    Ok(upper)
}
