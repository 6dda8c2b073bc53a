ghost use Rattle.std.specs.Prelude.{◌≡◌, ℕ, List, Option};
ghost use Rattle.pl_due.specs.Due.{IsDue};
ghost use Rattle.pl_facts.specs.declared.fact.Event.{Event};
ghost use Rattle.pl_facts.specs.declared.fact.Fact.{Fact};

use pl_checks::verdict_laws;

/// The law that facts and a moment leave no choice in what is due.
pub fn due_laws()
    ensures one { (facts : List Fact) (moment : ℕ) (left right : Option Event) →
        IsDue facts moment left → IsDue facts moment right → left ≡ right }
{
    verdict_laws();
}
