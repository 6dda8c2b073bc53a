ghost use Rattle.std.specs.Prelude.{◌≡◌, ◌&&◌, ℕ, List, is_none};
ghost use Rattle.pl_checks.specs.declared.check.Check.{Check};
ghost use Rattle.pl_checks.specs.declared.view.CheckView.{CheckView};
ghost use Rattle.pl_checks.specs.declared.view.Verdict.{Verdict};
ghost use Rattle.pl_judgement.specs.Said.{AreVerdicts, all_pass, first_fail, first_wait};

use pl_checks::verdict_laws;

/// Laws of what checks say together: what they see and a moment leave no choice in their verdicts,
/// and all pass exactly where none fails and none waits.
pub fn judgement_laws()
    ensures one { (checks : List Check) (view : CheckView) (moment : ℕ)
        (left right : List Verdict) → AreVerdicts checks view moment left →
        AreVerdicts checks view moment right → left ≡ right }
    ensures passing { (verdicts : List Verdict) →
        all_pass verdicts ≡ (is_none (first_fail verdicts) && is_none (first_wait verdicts)) }
{
    verdict_laws();
}
