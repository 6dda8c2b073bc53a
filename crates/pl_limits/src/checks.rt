ghost use Rattle.std.specs.Prelude.{◌≡◌, IfOk};
ghost use Rattle.std.specs.List.{list_all};
ghost use Rattle.pl_checks.specs.declared.check.Check.TheVariants.{Approval as Approvals, Hours};
ghost use Rattle.pl_limits.specs.Limits.{is_check};
ghost use Rattle.pl_names.specs.Names.{is_key};

use crate::lists::{are_distinct_days, are_distinct_texts, are_names};
use crate::numbers::are_minutes;
use pl_base::{FileKey, List, Memory};
use pl_checks::{Approval, BusinessHours, Check};
use pl_names::is_key;
use std::alloc::Global;

/// Whether checks are within their limits. Memory where memory is wanting.
pub fn are_checks(alloc: Global, checks: &List<Check>) -> Result<bool, Memory>
    ensures { IfOk result (λ are. are ≡ list_all is_check checks.now) }
{
    for check in checks.as_slice() {
        if !is_check(alloc, check)? {
            return Ok(false);
        }
    }
    Ok(true)
}

/// Whether a check is within its limits: it has a template, whose key is one, or a pattern, or
/// approvers, each once and with a name, of whom it needs one at least and all at most, or days,
/// each once, with a start before an end in 1,440 minutes; and it waits for from one minute to a
/// year. Memory where memory is wanting.
pub fn is_check(alloc: Global, check: &Check) -> Result<bool, Memory>
    ensures { IfOk result (λ is. is ≡ is_check check.now) }
{
    match check {
        Check::RequiredTemplate(told) => {
            Ok(!told.templates.is_empty() && are_keys(&told.templates))
        }
        Check::Branch(told) => Ok(!told.patterns.is_empty()),
        Check::Approval(told) => is_approval(alloc, told),
        Check::Hours(told) => Ok(are_hours(told)),
    }
}

/// Whether an approval is within its limits.
fn is_approval(alloc: Global, told: &Approval) -> Result<bool, Memory>
    ensures { IfOk result (λ is. is ≡ is_check (Approvals told.now)) }
{
    let distinct = are_distinct_texts(alloc, told.approvers.as_slice())?;
    Ok(
        are_names(&told.approvers)
            && distinct
            && 1 <= told.least
            && told.least as usize <= told.approvers.len()
            && are_minutes(told.minutes),
    )
}

/// Whether business hours are within their limits.
fn are_hours(told: &BusinessHours) -> bool
    ensures { result ≡ is_check (Hours told.now) }
{
    !told.days.is_empty()
        && are_distinct_days(told.days.as_slice())
        && told.start < told.end
        && told.end <= 1440
        && are_minutes(told.minutes)
}

/// Whether files' keys are within their limits.
fn are_keys(keys: &List<FileKey>) -> bool
    ensures { result ≡ list_all is_key keys.now }
{
    keys.as_slice().iter().all(|key| is_key(key))
}
