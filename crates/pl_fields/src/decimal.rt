ghost use Rattle.std.specs.Prelude.{◌≡◌, ◌≢◌, ◌<◌, ◌^◌, ℕ, MatchOption, decimal};
ghost use Rattle.pl_fields.specs.Fields.{decimal_text};
ghost use Rattle.pl_fields.specs.WaysOfDecimals.{decimal_one_way};

use crate::bytes::piece_at;
use crate::fault::DecodeFault;
use crate::field::{Field, Written};
use crate::texts::RawSlice;
use itoa::Buffer;
use pl_base::Memory;
use std::alloc::Global;

/// A number that is written as a text, its decimal digits without a leading zero.
#[derive(Clone, Copy, Debug, PartialEq, Eq)]
pub(crate) struct Decimal {
    pub number: u64,
}

/// The number whose decimal digits, without a leading zero, a text is.
fn number_of(text: &[u8]) -> Option<u64>
    ensures { MatchOption result
        ((n : ℕ) → n < 2 ^ 64 → text.now ≢ decimal n)
        (λ n. text.now ≡ decimal n) }
{
    match str::from_utf8(text) {
        Ok(digits) => number_in(digits),
        Err(_) => None,
    }
}

/// The same of a text.
fn number_in(digits: &str) -> Option<u64>
    ensures { MatchOption result
        ((n : ℕ) → n < 2 ^ 64 → digits.now ≢ decimal n)
        (λ n. digits.now ≡ decimal n) }
{
    match digits.parse::<u64>() {
        Ok(number) => {
            if Buffer::new().format(number) == digits {
                Some(number)
            } else {
                None
            }
        }
        Err(_) => None,
    }
}

impl Written for Decimal {
    ghost spelled = { λ told. decimal_text told.number };

    ghost short = { λ _. Unit {0} };

    ghost fits = { λ told. told.number < 2 ^ 64 };

    fn size(&self) -> usize {
        let mut buffer = Buffer::new();
        buffer.format(self.number).len() + 4
    }

    fn put(&self, out: &mut Vec<u8>) -> Result<(), Memory> {
        let mut buffer = Buffer::new();
        let bytes = buffer.format(self.number).as_bytes();
        RawSlice { bytes }.put(out)
    }
}

impl Field for Decimal {
    fn read(_alloc: Global, bytes: &[u8]) -> Result<(Decimal, &[u8]), DecodeFault> {
        let Some((text, rest)) = piece_at(bytes) else {
            return Err(DecodeFault::Torn);
        };
        match number_of(text) {
            Some(number) => Ok((Decimal { number }, rest)),
            None => Err(DecodeFault::Torn),
        }
    }

    ghost one_way = { decimal_one_way };
}
