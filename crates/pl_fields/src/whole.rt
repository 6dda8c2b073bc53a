ghost use Rattle.std.specs.Prelude.{◌≡◌, ℕ, IfOk, IsErrOf, List};
ghost use Rattle.pl_fields.specs.Reading.{Is};

use crate::fault::DecodeFault;
use crate::field::{Field, Written};
use pl_base::{Bytes, List, Memory};
use std::alloc::Global;

/// The bytes of a value, for which memory is taken once.
pub fn encoded<T: Written>(alloc: Global, value: &T) -> Result<Bytes, Memory>
    requires { T.short value.now }
    ensures { IfOk result (λ bytes. Is T.spelled T.fits bytes value.now) }
{
    let mut out = Vec::with_capacity(alloc, value.size())?;
    value.put(&mut out)?;
    Ok(List::from_vec(out))
}

/// The value that the bytes are, all of them.
///
/// Torn comes exactly where they are no value's: a field passes their end, a byte is left behind
/// the
/// last one, a text isn't UTF-8, or a number, a flag or a kind isn't one of its type.
pub fn decoded<T: Field>(alloc: Global, bytes: &[u8]) -> Result<T, DecodeFault>
    ensures ok { IfOk result (Is T.spelled T.fits bytes.now) }
    ensures torn { IsErrOf result DecodeFault.Torn →
        (value : T) → ¬ Is T.spelled T.fits bytes.now value }
{
    let (value, rest) = T::read(alloc, bytes)?;
    if rest.is_empty() {
        Ok(value)
    } else {
        Err(DecodeFault::Torn)
    }
}
