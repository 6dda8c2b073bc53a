ghost use Rattle.std.specs.Prelude.{◌≡◌, ◌∷◌, ◌++◌, [], ℕ, Option, Some, List, OnOk, slice_get};
ghost use Rattle.pl_rules.specs.Days.{day_number};
ghost use Rattle.pl_fields.specs.Kinds.{arguments_number, kind_number, outcome_number};
ghost use Rattle.pl_fields.specs.Kinds.{role_number};
ghost use Rattle.pl_fields.specs.Kinds.{argument_rules, days, kinds, outcomes, roles};
ghost use Rattle.pl_fields.specs.Reading.{Reads};
ghost use Rattle.pl_fields.specs.WaysOfKinds.{arguments_back, day_back, kind_back, outcome_back};
ghost use Rattle.pl_fields.specs.WaysOfKinds.{role_back};
ghost use Rattle.pl_fields.specs.WaysOfKinds.{arguments_there, day_there, kind_there};
ghost use Rattle.pl_fields.specs.WaysOfKinds.{outcome_there, role_there};
ghost use Rattle.pl_fields.specs.WaysOfKinds.{numbered_one_way};

use crate::fault::DecodeFault;
use crate::field::{Field, Written};
use pl_base::{Kind, Memory, Outcome};
use pl_checks::Arguments;
use pl_rules::{Day, Role};
use std::alloc::Global;

/// A kind of values that are one byte each: the place, from 0, in the list of them.
trait Numbered: Copy {
    /// The place of a value among them.
    ghost place: { Self → ℕ };

    /// The kind's values, in order.
    ghost listed: { List Self };

    /// The number of the value.
    fn number(self) -> u8
        ensures { result ≡ place self };

    /// The value of a number, or None where there is none.
    fn numbered(number: u8) -> Option<Self>
        ensures { result ≡ slice_get listed number };

    ghost back: { (x : Self) → slice_get listed (place x) ≡ Some x };

    ghost there: { (n : ℕ) (x : Self) → slice_get listed n ≡ Some x → n ≡ place x };
}

/// Puts the byte of a value.
fn put_number<T: Numbered>(value: T, out: &mut Vec<u8>) -> Result<(), Memory>
    ensures { OnOk result (out.new.items ≡ out.old.items ++ T.place value ∷ []) }
{
    out.push(value.number())?;
    Ok(())
}

/// Reads the byte of a value.
fn read_number<T: Numbered>(bytes: &[u8]) -> Result<(T, &[u8]), DecodeFault>
    ensures { Reads (λ (x : T). T.place x ∷ []) (λ _. Unit {0}) (λ read. (read.0, read.1.now))
        bytes.now result }
{
    let Some((first, rest)) = bytes.split_first() else {
        return Err(DecodeFault::Torn);
    };
    match T::numbered(*first) {
        Some(value) => Ok((value, rest)),
        None => Err(DecodeFault::Torn),
    }
}

impl Numbered for Outcome {
    ghost place = { outcome_number };

    ghost listed = { outcomes };

    fn number(self) -> u8 {
        self as u8
    }

    fn numbered(number: u8) -> Option<Outcome> {
        match number {
            0 => Some(Outcome::Succeeded),
            1 => Some(Outcome::SucceededWithIssues),
            2 => Some(Outcome::Failed),
            3 => Some(Outcome::Canceled),
            4 => Some(Outcome::Skipped),
            _ => None,
        }
    }

    ghost back = { outcome_back };

    ghost there = { outcome_there };
}

impl Written for Outcome {
    ghost spelled = { λ value. outcome_number value ∷ [] };

    ghost short = { λ _. Unit {0} };

    ghost fits = { λ _. Unit {0} };

    fn size(&self) -> usize {
        1
    }

    fn put(&self, out: &mut Vec<u8>) -> Result<(), Memory> {
        put_number(*self, out)
    }
}

impl Field for Outcome {
    fn read(_alloc: Global, bytes: &[u8]) -> Result<(Outcome, &[u8]), DecodeFault> {
        read_number(bytes)
    }

    ghost one_way = { numbered_one_way outcome_number outcomes outcome_back };
}

impl Numbered for Kind {
    ghost place = { kind_number };

    ghost listed = { kinds };

    fn number(self) -> u8 {
        self as u8
    }

    fn numbered(number: u8) -> Option<Kind> {
        match number {
            0 => Some(Kind::Environment),
            1 => Some(Kind::Connection),
            2 => Some(Kind::Group),
            3 => Some(Kind::Pool),
            4 => Some(Kind::Repository),
            _ => None,
        }
    }

    ghost back = { kind_back };

    ghost there = { kind_there };
}

impl Written for Kind {
    ghost spelled = { λ value. kind_number value ∷ [] };

    ghost short = { λ _. Unit {0} };

    ghost fits = { λ _. Unit {0} };

    fn size(&self) -> usize {
        1
    }

    fn put(&self, out: &mut Vec<u8>) -> Result<(), Memory> {
        put_number(*self, out)
    }
}

impl Field for Kind {
    fn read(_alloc: Global, bytes: &[u8]) -> Result<(Kind, &[u8]), DecodeFault> {
        read_number(bytes)
    }

    ghost one_way = { numbered_one_way kind_number kinds kind_back };
}

impl Numbered for Role {
    ghost place = { role_number };

    ghost listed = { roles };

    fn number(self) -> u8 {
        self as u8
    }

    fn numbered(number: u8) -> Option<Role> {
        match number {
            0 => Some(Role::Admin),
            1 => Some(Role::Author),
            2 => Some(Role::Approver),
            3 => Some(Role::Agent),
            4 => Some(Role::Reader),
            _ => None,
        }
    }

    ghost back = { role_back };

    ghost there = { role_there };
}

impl Written for Role {
    ghost spelled = { λ value. role_number value ∷ [] };

    ghost short = { λ _. Unit {0} };

    ghost fits = { λ _. Unit {0} };

    fn size(&self) -> usize {
        1
    }

    fn put(&self, out: &mut Vec<u8>) -> Result<(), Memory> {
        put_number(*self, out)
    }
}

impl Field for Role {
    fn read(_alloc: Global, bytes: &[u8]) -> Result<(Role, &[u8]), DecodeFault> {
        read_number(bytes)
    }

    ghost one_way = { numbered_one_way role_number roles role_back };
}

impl Numbered for Day {
    ghost place = { day_number };

    ghost listed = { days };

    fn number(self) -> u8 {
        Day::number(self)
    }

    fn numbered(number: u8) -> Option<Day> {
        match number {
            0 => Some(Day::Mon),
            1 => Some(Day::Tue),
            2 => Some(Day::Wed),
            3 => Some(Day::Thu),
            4 => Some(Day::Fri),
            5 => Some(Day::Sat),
            6 => Some(Day::Sun),
            _ => None,
        }
    }

    ghost back = { day_back };

    ghost there = { day_there };
}

impl Written for Day {
    ghost spelled = { λ value. day_number value ∷ [] };

    ghost short = { λ _. Unit {0} };

    ghost fits = { λ _. Unit {0} };

    fn size(&self) -> usize {
        1
    }

    fn put(&self, out: &mut Vec<u8>) -> Result<(), Memory> {
        put_number(*self, out)
    }
}

impl Field for Day {
    fn read(_alloc: Global, bytes: &[u8]) -> Result<(Day, &[u8]), DecodeFault> {
        read_number(bytes)
    }

    ghost one_way = { numbered_one_way day_number days day_back };
}

impl Numbered for Arguments {
    ghost place = { arguments_number };

    ghost listed = { argument_rules };

    fn number(self) -> u8 {
        self as u8
    }

    fn numbered(number: u8) -> Option<Arguments> {
        match number {
            0 => Some(Arguments::Any),
            1 => Some(Arguments::Values),
            _ => None,
        }
    }

    ghost back = { arguments_back };

    ghost there = { arguments_there };
}

impl Written for Arguments {
    ghost spelled = { λ value. arguments_number value ∷ [] };

    ghost short = { λ _. Unit {0} };

    ghost fits = { λ _. Unit {0} };

    fn size(&self) -> usize {
        1
    }

    fn put(&self, out: &mut Vec<u8>) -> Result<(), Memory> {
        put_number(*self, out)
    }
}

impl Field for Arguments {
    fn read(_alloc: Global, bytes: &[u8]) -> Result<(Arguments, &[u8]), DecodeFault> {
        read_number(bytes)
    }

    ghost one_way = { numbered_one_way arguments_number argument_rules arguments_back };
}
