ghost use Rattle.std.specs.Prelude.{◌≡◌};
ghost use Rattle.pl_fields.specs.Checks.{check, check_fields, check_number, IsCheck, IsShortCheck};
ghost use Rattle.pl_fields.specs.Reading.{Reads};
ghost use Rattle.pl_fields.specs.WaysOfChecks.{check_one_way};

use crate::fault::DecodeFault;
use crate::field::{Field, Written};
use pl_base::{FileKey, List, Memory, Text};
use pl_checks::{Approval, Arguments, BranchControl, BusinessHours, Check, RequiredTemplate, Zone};
use pl_rules::Day;
use std::alloc::Global;

/// A check: the byte of its kind, then its fields.
impl Written for Check {
    ghost spelled = { check };

    ghost short = { IsShortCheck };

    ghost fits = { IsCheck };

    fn size(&self) -> usize {
        let fields = match self {
            Check::RequiredTemplate(told) => (&told.templates, told.arguments).size(),
            Check::Branch(told) => told.patterns.size(),
            Check::Approval(told) => {
                let rest = (told.least, (told.requester, told.minutes));
                (&told.approvers, rest).size()
            }
            Check::Hours(told) => {
                let rest = (told.start, (told.end, told.minutes));
                (&told.days, (&told.zone, rest)).size()
            }
        };
        fields.saturating_add(1)
    }

    fn put(&self, out: &mut Vec<u8>) -> Result<(), Memory> {
        match self {
            Check::RequiredTemplate(told) => {
                out.push(0)?;
                (&told.templates, told.arguments).put(out)
            }
            Check::Branch(told) => {
                out.push(1)?;
                told.patterns.put(out)
            }
            Check::Approval(told) => {
                out.push(2)?;
                let rest = (told.least, (told.requester, told.minutes));
                (&told.approvers, rest).put(out)
            }
            Check::Hours(told) => {
                out.push(3)?;
                let rest = (told.start, (told.end, told.minutes));
                (&told.days, (&told.zone, rest)).put(out)
            }
        }
    }
}

impl Field for Check {
    fn read(alloc: Global, bytes: &[u8]) -> Result<(Check, &[u8]), DecodeFault> {
        match bytes {
            [0, rest @ ..] => read_template(alloc, rest),
            [1, rest @ ..] => read_branch(alloc, rest),
            [2, rest @ ..] => read_approval(alloc, rest),
            [3, rest @ ..] => read_hours(alloc, rest),
            _ => Err(DecodeFault::Torn),
        }
    }

    ghost one_way = { check_one_way };
}

/// The fields of a required template.
fn read_template(alloc: Global, bytes: &[u8]) -> Result<(Check, &[u8]), DecodeFault>
    ensures { Reads check_fields (λ told. IsCheck told × (check_number told ≡ 0))
        (λ read. (read.0, read.1.now)) bytes.now result }
{
    let ((templates, arguments), rest) = <(List<FileKey>, Arguments)>::read(alloc, bytes)?;
    let check = RequiredTemplate {
        templates,
        arguments,
    };
    Ok((Check::RequiredTemplate(check), rest))
}

/// The field of branch control.
fn read_branch(alloc: Global, bytes: &[u8]) -> Result<(Check, &[u8]), DecodeFault>
    ensures { Reads check_fields (λ told. IsCheck told × (check_number told ≡ 1))
        (λ read. (read.0, read.1.now)) bytes.now result }
{
    let (patterns, rest) = <List<Text>>::read(alloc, bytes)?;
    Ok((Check::Branch(BranchControl { patterns }), rest))
}

/// The fields of an approval.
fn read_approval(alloc: Global, bytes: &[u8]) -> Result<(Check, &[u8]), DecodeFault>
    ensures { Reads check_fields (λ told. IsCheck told × (check_number told ≡ 2))
        (λ read. (read.0, read.1.now)) bytes.now result }
{
    let ((approvers, (least, (requester, minutes))), rest) = <(
        List<Text>,
        (u32, (bool, u32)),
    )>::read(alloc, bytes)?;
    let check = Approval {
        approvers,
        least,
        requester,
        minutes,
    };
    Ok((Check::Approval(check), rest))
}

/// The fields of business hours.
fn read_hours(alloc: Global, bytes: &[u8]) -> Result<(Check, &[u8]), DecodeFault>
    ensures { Reads check_fields (λ told. IsCheck told × (check_number told ≡ 3))
        (λ read. (read.0, read.1.now)) bytes.now result }
{
    let ((days, (zone, (start, (end, minutes)))), rest) = <(
        List<Day>,
        (Zone, (u32, (u32, u32))),
    )>::read(alloc, bytes)?;
    let check = BusinessHours {
        days,
        zone,
        start,
        end,
        minutes,
    };
    Ok((Check::Hours(check), rest))
}
