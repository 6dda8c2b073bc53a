ghost use Rattle.std.specs.Prelude.{◌≡◌, ◌≤◌, ◌++◌, ◌∷◌, [], List, None, OnOk, Some, filter};
ghost use Rattle.std.specs.Option.{option_or};
ghost use Rattle.pl_checks.specs.declared.check.Check.{Check};
ghost use Rattle.pl_checks.specs.declared.view.Verdict.{Verdict};
ghost use Rattle.pl_judgement.specs.Kinds.{is_of};
ghost use Rattle.pl_judgement.specs.Said.{IsJudgement, Sums, all_pass, first_fail, first_wait};

use crate::kind::CheckKind;
use pl_base::{Memory, Moment};
use pl_checks::{Check, CheckView, Verdict, verdict};
use pl_rules::Rule;
use std::alloc::Global;

/// What is kept of what checks say: the rule by which the first fails that fails, and the rule by
/// which the first waits that waits.
#[derive(Debug, Drop)]
pub struct Judgement {
    pub fail: Option<Rule>,
    pub wait: Option<Rule>,
}

impl Judgement {
    /// Nothing was said yet.
    pub fn new() -> Judgement
        ensures fail { result.fail ≡ None }
        ensures wait { result.wait ≡ None }
    {
        Judgement {
            fail: None,
            wait: None,
        }
    }

    /// Asks those of some checks that are of a kind what they say of a stage at a moment, in their
    /// order, behind what was asked before. After Memory some of them were asked.
    pub fn ask(
        &mut self,
        alloc: Global,
        checks: &[Check],
        kind: CheckKind,
        view: &CheckView,
        moment: Moment,
    ) -> Result<(), Memory>
        requires moment { moment ≤ 4102444799 }
        requires ready { view.now.ready ≤ 4102444799 }
        ensures { (before : List Check) → IsJudgement before view.now moment self.old →
            OnOk result (IsJudgement (before ++ filter (is_of kind) checks.now) view.now moment
            self.new) }
    {
        for check in checks {
            if kind.is_of(check) {
                self.hear(verdict(alloc, check, view, moment)?);
            }
        }
        Ok(())
    }

    /// Whether each check passes that was asked.
    pub fn passes(&self) -> bool
        ensures { (verdicts : List Verdict) → Sums verdicts self.now →
            result ≡ all_pass verdicts }
    {
        self.fail.is_none() && self.wait.is_none()
    }

    /// One verdict more.
    fn hear(&mut self, verdict: Verdict)
        ensures fail { self.new.fail ≡ option_or self.old.fail (first_fail (verdict ∷ [])) }
        ensures wait { self.new.wait ≡ option_or self.old.wait (first_wait (verdict ∷ [])) }
    {
        match verdict {
            Verdict::Pass => {}
            Verdict::Wait(rule) => keep_first(&mut self.wait, rule),
            Verdict::Fail(rule) => keep_first(&mut self.fail, rule),
        }
    }
}

/// Keeps a rule where none is kept.
fn keep_first(kept: &mut Option<Rule>, rule: Rule)
    ensures { kept.new ≡ option_or kept.old (Some rule) }
{
    if kept.is_none() {
        *kept = Some(rule);
    }
}
