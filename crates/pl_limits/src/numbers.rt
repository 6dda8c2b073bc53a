ghost use Rattle.std.specs.Prelude.{◌≡◌};
ghost use Rattle.pl_limits.specs.Limits.{are_minutes, is_counted, is_run};

/// The greatest number of a run, of a version and of a change.
const LAST_NUMBER: u64 = 999_999_999_999_999_999;

/// Whether a number has at most 18 digits.
pub fn is_counted(number: u64) -> bool
    ensures { result ≡ is_counted number }
{
    number <= LAST_NUMBER
}

/// Whether a number is one of a run: from 1 on, with at most 18 digits.
pub fn is_run(number: u64) -> bool
    ensures { result ≡ is_run number }
{
    1 <= number && is_counted(number)
}

/// Whether so many minutes are at least one and at most a year.
pub(crate) fn are_minutes(minutes: u32) -> bool
    ensures { result ≡ are_minutes minutes }
{
    1 <= minutes && minutes <= 525_600
}
