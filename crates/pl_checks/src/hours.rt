ghost use Rattle.std.specs.Prelude.{◌≤◌, ◌↔◌, IsTrue};
ghost use Rattle.pl_checks.specs.Hours.{IsHoursVerdict, IsOpen};

use crate::approval::deadline;
use crate::check::BusinessHours;
use crate::view::{CheckView, Verdict};
use pl_base::Moment;
use pl_rules::Rule;
use pl_zones::Local;

/// What business hours say of a stage at a moment.
pub(crate) fn hours_verdict(check: &BusinessHours, view: &CheckView, moment: Moment) -> Verdict
    requires moment { moment ≤ 4102444799 }
    requires ready { view.now.ready ≤ 4102444799 }
    ensures { IsHoursVerdict check.now view.now moment result }
{
    let local = check.zone.local_at(moment);
    if is_open(check, local) {
        return Verdict::Pass;
    }
    if moment >= deadline(view.ready, check.minutes) {
        return Verdict::Fail(Rule::HoursTimeout);
    }
    Verdict::Wait(Rule::HoursClosed {
        day: local.day,
        minute: local.minute,
    })
}

/// Whether a day is listed and its minute lies from the start to before the end.
fn is_open(check: &BusinessHours, local: Local) -> bool
    ensures { IsTrue result ↔ IsOpen check.now local }
{
    check.days.as_slice().contains(&local.day)
        && check.start <= local.minute
        && local.minute < check.end
}
