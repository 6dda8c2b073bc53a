ghost use Rattle.std.specs.Prelude.{◌≡◌};
ghost use Rattle.pl_fields.specs.Reading.{Reads};
ghost use Rattle.pl_fields.specs.Rules.{rule, rule_number, rule_texts, IsKeptRule, IsShortRule};
ghost use Rattle.pl_fields.specs.WaysOfRules.{rule_one_way};

use crate::decimal::Decimal;
use crate::fault::DecodeFault;
use crate::field::{Field, Written};
use pl_base::{Memory, Text};
use pl_rules::Rule;
use std::alloc::Global;

/// A rule that ends a stage or a job: its number, then what it tells as texts.
impl Written for Rule {
    ghost spelled = { rule };

    ghost short = { IsShortRule };

    ghost fits = { IsKeptRule };

    fn size(&self) -> usize {
        match self {
            Rule::TemplateArgument { job, step } => {
                let number = u64::from(*step);
                (5u64, (job, Decimal { number })).size()
            }
            Rule::BranchRefused { git_ref } => (6u64, git_ref).size(),
            Rule::ApprovalRejected { approver } => (7u64, approver).size(),
            Rule::LockSuperseded { run } => (10u64, Decimal { number: *run }).size(),
            _ => 8,
        }
    }

    fn put(&self, out: &mut Vec<u8>) -> Result<(), Memory> {
        match self {
            Rule::ConditionFalse => 1u64.put(out),
            Rule::RunCanceled => 2u64.put(out),
            Rule::JobTimeout => 3u64.put(out),
            Rule::TemplateRequired => 4u64.put(out),
            Rule::TemplateArgument { job, step } => {
                let number = u64::from(*step);
                (5u64, (job, Decimal { number })).put(out)
            }
            Rule::BranchRefused { git_ref } => (6u64, git_ref).put(out),
            Rule::ApprovalRejected { approver } => (7u64, approver).put(out),
            Rule::ApprovalTimeout => 8u64.put(out),
            Rule::HoursTimeout => 9u64.put(out),
            Rule::LockSuperseded { run } => (10u64, Decimal { number: *run }).put(out),
            _ => unreachable!(),
        }
    }
}

impl Field for Rule {
    fn read(alloc: Global, bytes: &[u8]) -> Result<(Rule, &[u8]), DecodeFault> {
        let (number, rest) = u64::read(alloc, bytes)?;
        rule_behind(alloc, number, rest)
    }

    ghost one_way = { rule_one_way };
}

/// The rule of a number, from the bytes behind the number.
fn rule_behind(alloc: Global, number: u64, bytes: &[u8]) -> Result<(Rule, &[u8]), DecodeFault>
    ensures { Reads rule_texts (λ told. IsKeptRule told × (rule_number told ≡ number))
        (λ read. (read.0, read.1.now)) bytes.now result }
{
    match number {
        1 => Ok((Rule::ConditionFalse, bytes)),
        2 => Ok((Rule::RunCanceled, bytes)),
        3 => Ok((Rule::JobTimeout, bytes)),
        4 => Ok((Rule::TemplateRequired, bytes)),
        5 => read_argument(alloc, bytes),
        6 => {
            let (git_ref, rest) = Text::read(alloc, bytes)?;
            Ok((Rule::BranchRefused { git_ref }, rest))
        }
        7 => {
            let (approver, rest) = Text::read(alloc, bytes)?;
            Ok((Rule::ApprovalRejected { approver }, rest))
        }
        8 => Ok((Rule::ApprovalTimeout, bytes)),
        9 => Ok((Rule::HoursTimeout, bytes)),
        10 => {
            let (run, rest) = Decimal::read(alloc, bytes)?;
            Ok((Rule::LockSuperseded { run: run.number }, rest))
        }
        _ => Err(DecodeFault::Torn),
    }
}

/// `template.argument`: a job, and the number of a step.
fn read_argument(alloc: Global, bytes: &[u8]) -> Result<(Rule, &[u8]), DecodeFault>
    ensures { Reads rule_texts (λ told. IsKeptRule told × (rule_number told ≡ 5))
        (λ read. (read.0, read.1.now)) bytes.now result }
{
    let ((job, step), rest) = <(Text, Decimal)>::read(alloc, bytes)?;
    match u32::try_from(step.number) {
        Ok(step) => Ok((Rule::TemplateArgument { job, step }, rest)),
        Err(_) => Err(DecodeFault::Torn),
    }
}
