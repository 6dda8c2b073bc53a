//! Numbers by their texts.

ghost use Rattle.std.specs.Prelude.{◌≡◌, ◌==◌, ◌<◌, IsTrue, length, option_and_then, slice_index, true, false};
ghost use Rattle.std.specs.Option.{is_some};
ghost use Rattle.serde_json.specs.Find.{as_u64};
ghost use Rattle.serde_json.specs.Read.{number_from, number_of};

use fast_float::Numeral;

/// Whether a number's text begins with a minus.
fn has_minus(digits: &[u8]) -> bool
    ensures value { result ≡ (slice_index digits.now 0 == 45) }
    ensures some { IsTrue result → 0 < length digits.now }
{
    !digits.is_empty() && digits[0] == b'-'
}

/// Whether a number is in range: a whole one of eight bytes, or one that the nearest of binary64
/// is finite for.
pub(crate) fn is_in_range(digits: &str) -> bool
    ensures { result ≡ is_some (number_of digits.now) }
{
    let bytes = digits.as_bytes();
    if has_minus(bytes) {
        is_negative_in_range(&Numeral::scan(&bytes[1..]))
    } else {
        is_positive_in_range(&Numeral::scan(bytes))
    }
}

fn is_negative_in_range(numeral: &Numeral<'_>) -> bool
    ensures { result ≡ is_some (number_from true numeral.now) }
{
    if let Some(number) = numeral.to_i64(true) {
        if number < 0 {
            return true;
        }
    }
    numeral.to_float::<f64>(true).is_finite()
}

fn is_positive_in_range(numeral: &Numeral<'_>) -> bool
    ensures { result ≡ is_some (number_from false numeral.now) }
{
    match numeral.to_u64() {
        Some(_) => true,
        None => numeral.to_float::<f64>(false).is_finite(),
    }
}

/// The number that a text is, where it is a whole one of eight bytes and has no minus.
pub(crate) fn whole(digits: &str) -> Option<u64>
    ensures { result ≡ option_and_then as_u64 (number_of digits.now) }
{
    let bytes = digits.as_bytes();
    if has_minus(bytes) {
        None
    } else {
        positive(&Numeral::scan(bytes))
    }
}

fn positive(numeral: &Numeral<'_>) -> Option<u64>
    ensures { result ≡ option_and_then as_u64 (number_from false numeral.now) }
{
    numeral.to_u64()
}
