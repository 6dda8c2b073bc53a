ghost use Rattle.std.specs.Prelude.{◌≡◌, ◌≤◌, ◌<◌, ℕ, IfSome};
ghost use Rattle.pl_checks.specs.Approvals.{deadline};
ghost use Rattle.pl_checks.specs.declared.view.CheckView.{CheckView};
ghost use Rattle.pl_wakes.specs.Steady as spec;

use pl_base::Moment;
use pl_checks::Check;

/// The sooner of two moments, where None is never.
pub fn sooner(one: Option<Moment>, other: Option<Moment>) -> Option<Moment>
    ensures { result ≡ spec.sooner one other }
{
    match (one, other) {
        (None, other) => other,
        (Some(one), None) => Some(one),
        (Some(one), Some(other)) => Some(one.min(other)),
    }
}

/// Until when a check says the same, from a moment on, of a stage that was ready then.
///
/// A template and branches are judged once for all. An approval says otherwise once its time is
/// over. Hours are looked at again at each moment.
fn check_until(check: &Check, ready: Moment, moment: Moment) -> Option<Moment>
    requires { moment ≤ 4102444799 }
    ensures later { IfSome result (λ until. moment < until) }
    ensures steady { (view : CheckView) → view.ready ≡ ready →
        spec.IsSteady check.now view moment result }
{
    match check {
        Check::RequiredTemplate(_) => None,
        Check::Branch(_) => None,
        Check::Approval(approval) => time_over(ready, approval.minutes, moment),
        Check::Hours(_) => Some(moment + 1),
    }
}

/// The moment at which a wait is over that began then, or None where it is over already.
fn time_over(ready: Moment, minutes: u32, moment: Moment) -> Option<Moment>
    requires { moment ≤ 4102444799 }
    ensures later { IfSome result (λ until. moment < until) }
    ensures within { moment < deadline ready minutes → (later : ℕ) →
        spec.IsBefore later result → later < deadline ready minutes }
{
    let over = ready.saturating_add(60 * minutes as u64);
    if moment < over { Some(over) } else { None }
}

/// Until when all of some checks say the same, from a moment on, of a stage that was ready then:
/// the soonest of the moments until which each does, and None where it is never. A stage of which
/// they said something has to be looked at again at that moment, and not before. It takes no memory.
pub fn steady_until(checks: &[Check], ready: Moment, moment: Moment) -> Option<Moment>
    requires { moment ≤ 4102444799 }
    ensures later { IfSome result (λ until. moment < until) }
    ensures steady { spec.AreSteady checks.now ready moment result }
{
    let mut until = None;
    for check in checks {
        until = sooner(until, check_until(check, ready, moment));
    }
    until
}
