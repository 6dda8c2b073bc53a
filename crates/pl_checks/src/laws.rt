ghost use Rattle.std.specs.Prelude.{◌≡◌, ℕ};
ghost use Rattle.pl_checks.specs.declared.check.Check.{Check};
ghost use Rattle.pl_checks.specs.declared.view.CheckView.{CheckView};
ghost use Rattle.pl_checks.specs.declared.view.Verdict.{Verdict};
ghost use Rattle.pl_checks.specs.Verdicts.{IsVerdict};

use pl_zones::zone_laws;

/// The law that a check, what it sees and a moment leave no choice in the verdict.
pub fn verdict_laws()
    ensures one { (check : Check) (view : CheckView) (moment : ℕ) (left right : Verdict) →
        IsVerdict check view moment left → IsVerdict check view moment right → left ≡ right }
{
    zone_laws();
}
