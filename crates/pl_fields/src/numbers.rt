ghost use Rattle.std.specs.Prelude.{◌<◌, ◌^◌};
ghost use Rattle.pl_fields.specs.Fields.{number, flag};
ghost use Rattle.pl_fields.specs.WaysOfFields.{number_one_way, small_one_way, flag_one_way};

use crate::bytes::number_at;
use crate::fault::DecodeFault;
use crate::field::{Field, Written};
use pl_base::Memory;
use std::alloc::Global;

/// A number: eight bytes.
impl Written for u64 {
    ghost spelled = { number };

    ghost short = { λ _. Unit {0} };

    ghost fits = { λ n. n < 2 ^ 64 };

    #[tactic(auto, unfolding(crate::specs::Fields::number))]
    fn size(&self) -> usize {
        8
    }

    #[tactic(auto, unfolding(crate::specs::Fields::number))]
    fn put(&self, out: &mut Vec<u8>) -> Result<(), Memory> {
        out.extend_from_slice(&self.to_be_bytes())?;
        Ok(())
    }
}

impl Field for u64 {
    fn read(_alloc: Global, bytes: &[u8]) -> Result<(u64, &[u8]), DecodeFault> {
        number_at(bytes).ok_or(DecodeFault::Torn)
    }

    ghost one_way = { number_one_way };
}

/// A number below 2^32: eight bytes too.
impl Written for u32 {
    ghost spelled = { number };

    ghost short = { λ _. Unit {0} };

    ghost fits = { λ n. n < 2 ^ 32 };

    #[tactic(auto, unfolding(crate::specs::Fields::number))]
    fn size(&self) -> usize {
        8
    }

    fn put(&self, out: &mut Vec<u8>) -> Result<(), Memory> {
        u64::from(*self).put(out)
    }
}

impl Field for u32 {
    fn read(alloc: Global, bytes: &[u8]) -> Result<(u32, &[u8]), DecodeFault> {
        let (number, rest) = u64::read(alloc, bytes)?;
        match u32::try_from(number) {
            Ok(number) => Ok((number, rest)),
            Err(_) => Err(DecodeFault::Torn),
        }
    }

    ghost one_way = { small_one_way };
}

/// A flag: a byte 0 or 1.
impl Written for bool {
    ghost spelled = { flag };

    ghost short = { λ _. Unit {0} };

    ghost fits = { λ _. Unit {0} };

    fn size(&self) -> usize {
        1
    }

    fn put(&self, out: &mut Vec<u8>) -> Result<(), Memory> {
        out.push(u8::from(*self))?;
        Ok(())
    }
}

impl Field for bool {
    fn read(_alloc: Global, bytes: &[u8]) -> Result<(bool, &[u8]), DecodeFault> {
        match bytes {
            [0, rest @ ..] => Ok((false, rest)),
            [1, rest @ ..] => Ok((true, rest)),
            _ => Err(DecodeFault::Torn),
        }
    }

    ghost one_way = { flag_one_way };
}
