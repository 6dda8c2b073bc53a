ghost use Rattle.std.specs.Prelude.{◌≡◌, ◌≤◌, [], ◌∷◌, length, pos, neg_ℤ, IfSome};
ghost use Rattle.jiff_core.specs.Calendar.{IsBetween};
ghost use Rattle.pl_zones.specs.Fixed.{digit_of, fixed_offset, hours_of, letters_of, signed_hours};

/// The value of a digit.
fn digit_of(byte: u8) -> Option<u8>
    ensures value { result ≡ digit_of byte }
    ensures within { IfSome result (λ value. value ≤ 9) }
{
    if byte.is_ascii_digit() {
        Some(byte - b'0')
    } else {
        None
    }
}

/// The value of two digits, where it is at most 24.
fn two_digits(tens: u8, ones: u8) -> Option<u8>
    ensures value { result ≡ hours_of (tens ∷ ones ∷ []) }
    ensures within { IfSome result (λ hours. hours ≤ 24) }
{
    let tens = digit_of(tens)?;
    let ones = digit_of(ones)?;
    let hours = 10 * tens + ones;
    if hours <= 24 { Some(hours) } else { None }
}

/// The hours that one or two digits spell.
fn hours_of(digits: &[u8]) -> Option<u8>
    ensures value { result ≡ hours_of digits.now }
    ensures within { IfSome result (λ hours. hours ≤ 24) }
{
    match digits {
        [ones] => digit_of(*ones),
        [tens, ones] => two_digits(*tens, *ones),
        _ => None,
    }
}

/// The seconds that a clock is ahead of UTC by what stands behind a zone's name.
fn signed_hours(text: &[u8]) -> Option<i32>
    ensures value { result ≡ signed_hours text.now }
    ensures within { IfSome result (λ seconds. IsBetween (neg_ℤ (pos 86400)) (pos 86400) seconds) }
{
    match text {
        [] => None,
        [b'-', digits @ ..] => Some(3600 * hours_of(digits)? as i32),
        [b'+', digits @ ..] => Some(-3600 * hours_of(digits)? as i32),
        digits => Some(-3600 * hours_of(digits)? as i32),
    }
}

/// How many letters begin a text.
fn letters_of(text: &[u8]) -> usize
    ensures value { result ≡ letters_of text.now }
    ensures within { result ≤ length text.now }
{
    text.iter()
        .take_while(|byte| byte.is_ascii_alphabetic())
        .count()
}

/// The seconds that a zone's clocks are ahead of UTC all the year, where its text is of the first
/// form: `UTC`, or three to six letters and hours.
#[tactic(auto, unfolding(crate::specs::Fixed::fixed_offset))]
pub(crate) fn fixed_offset(text: &[u8]) -> Option<i32>
    ensures value { result ≡ fixed_offset text.now }
    ensures within { IfSome result (λ seconds. IsBetween (neg_ℤ (pos 86400)) (pos 86400) seconds) }
{
    if text == b"UTC".as_slice() {
        return Some(0);
    }
    let letters = letters_of(text);
    if letters < 3 || letters > 6 {
        return None;
    }
    signed_hours(&text[letters..])
}
