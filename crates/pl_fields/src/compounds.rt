ghost use Rattle.std.specs.Prelude.{◌≡◌, ◌++◌, [], IfSome, length};
ghost use Rattle.std.specs.List.{flat_map, AllByRecursion};
ghost use Rattle.pl_fields.specs.Fields.{list, option, IsListOf};
ghost use Rattle.pl_fields.specs.Reading.{Reads};
ghost use Rattle.pl_fields.specs.WaysOfCompounds.{list_one_way, nothing_one_way, option_one_way};
ghost use Rattle.pl_fields.specs.WaysOfCompounds.{pair_one_way};

use crate::bytes::count_at;
use crate::fault::DecodeFault;
use crate::field::{Field, Written};
use pl_base::{List, Memory};
use std::alloc::Global;

/// No field: no byte.
impl Written for () {
    ghost spelled = { λ _. [] };

    ghost short = { λ _. Unit {0} };

    ghost fits = { λ _. Unit {0} };

    fn size(&self) -> usize {
        0
    }

    fn put(&self, _out: &mut Vec<u8>) -> Result<(), Memory> {
        Ok(())
    }
}

impl Field for () {
    fn read(_alloc: Global, bytes: &[u8]) -> Result<((), &[u8]), DecodeFault> {
        Ok(((), bytes))
    }

    ghost one_way = { nothing_one_way };
}

/// Two fields: the one, then the other.
impl<A: Written, B: Written> Written for (A, B) {
    ghost spelled = { λ pair. A.spelled pair.0 ++ B.spelled pair.1 };

    ghost short = { λ pair. A.short pair.0 × B.short pair.1 };

    ghost fits = { λ pair. A.fits pair.0 × B.fits pair.1 };

    fn size(&self) -> usize {
        self.0.size().saturating_add(self.1.size())
    }

    fn put(&self, out: &mut Vec<u8>) -> Result<(), Memory> {
        self.0.put(out)?;
        self.1.put(out)
    }
}

impl<A: Field, B: Field> Field for (A, B) {
    fn read(alloc: Global, bytes: &[u8]) -> Result<((A, B), &[u8]), DecodeFault> {
        let (first, rest) = A::read(alloc, bytes)?;
        let (second, rest) = B::read(alloc, rest)?;
        Ok(((first, second), rest))
    }

    ghost one_way = { pair_one_way A.spelled A.fits A.one_way B.spelled B.fits B.one_way };
}

/// An option: a flag, then the field where there is one.
impl<T: Written> Written for Option<T> {
    ghost spelled = { option T.spelled };

    ghost short = { λ value. IfSome value T.short };

    ghost fits = { λ value. IfSome value T.fits };

    fn size(&self) -> usize {
        match self {
            None => 1,
            Some(value) => value.size().saturating_add(1),
        }
    }

    fn put(&self, out: &mut Vec<u8>) -> Result<(), Memory> {
        match self {
            None => {
                out.push(0)?;
                Ok(())
            }
            Some(value) => {
                out.push(1)?;
                value.put(out)
            }
        }
    }
}

impl<T: Field> Field for Option<T> {
    fn read(alloc: Global, bytes: &[u8]) -> Result<(Option<T>, &[u8]), DecodeFault> {
        match bytes {
            [0, rest @ ..] => Ok((None, rest)),
            [1, rest @ ..] => {
                let (value, rest) = T::read(alloc, rest)?;
                Ok((Some(value), rest))
            }
            _ => Err(DecodeFault::Torn),
        }
    }

    ghost one_way = { option_one_way T.spelled T.fits T.one_way };
}

/// A list: its length, then its items.
impl<T: Written> Written for List<T> {
    ghost spelled = { list T.spelled };

    ghost short = { IsListOf T.short };

    ghost fits = { IsListOf T.fits };

    fn size(&self) -> usize {
        let mut size: usize = 4;
        for item in self.as_slice() {
            size = size.saturating_add(item.size());
        }
        size
    }

    #[tactic(auto, unfolding(crate::specs::Fields::list, crate::specs::Fields::count))]
    fn put(&self, out: &mut Vec<u8>) -> Result<(), Memory> {
        out.extend_from_slice(&(self.len() as u32).to_be_bytes())?;
        for item in self.as_slice() {
            item.put(out)?;
        }
        Ok(())
    }
}

impl<T: Field> Field for List<T> {
    fn read(alloc: Global, bytes: &[u8]) -> Result<(List<T>, &[u8]), DecodeFault> {
        let Some((count, rest)) = count_at(bytes) else {
            return Err(DecodeFault::Torn);
        };
        read_items(alloc, count, rest)
    }

    ghost one_way = { list_one_way T.spelled T.fits T.one_way };
}

/// So many items, one behind the other.
fn read_items<T: Field>(
    alloc: Global,
    count: u32,
    bytes: &[u8],
) -> Result<(List<T>, &[u8]), DecodeFault>
    ensures { Reads (flat_map T.spelled)
        (λ items. (length items ≡ count) × AllByRecursion T.fits items)
        (λ read. (read.0, read.1.now)) bytes.now result }
{
    let mut items = List::new(alloc);
    let mut rest = bytes;
    for _ in 0..count {
        let (item, after) = T::read(alloc, rest)?;
        items.push(item)?;
        rest = after;
    }
    Ok((items, rest))
}
