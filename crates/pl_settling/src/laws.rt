ghost use Rattle.std.specs.Prelude.{◌≡◌, ◌≤◌, ℕ, List, None, length};
ghost use Rattle.pl_due.specs.Due.{IsDue};
ghost use Rattle.pl_facts.specs.declared.fact.Fact.{Fact};
ghost use Rattle.pl_settling.specs.Allowed.{allowed};
ghost use Rattle.pl_settling.specs.Laws.{Along, Gap, HasOneHolder, IsOnce, StartsAsNext};
ghost use Rattle.pl_settling.specs.Laws.{StillOneHolder};
ghost use Rattle.pl_settling.specs.Settles.{Adds, Settles};

use pl_due::due_laws;

/// Laws of settling, whatever the facts before it are.
///
/// Each stage that it starts was the next one on the facts before that and at its moment: it waited
/// for nothing more, its condition was true, its pipeline might use what it uses, every check
/// passed, and every exclusive resource that it uses was free. Where each exclusive resource has
/// one holder at most before settling, it has one at most behind each fact that settling adds.
/// Where nothing is due, something keeps each stage waiting that is neither started nor ended: a
/// stage, a permission, an open approval or closed hours, a holder, or an earlier stage. A job gets
/// at most one fact of it, a stage at most two, and all that settling adds is at most two facts for
/// each stage and one for each job of the plans of queued runs. And facts and a moment leave no
/// choice in what settling adds.
pub fn settling_laws()
    ensures next { (moment : ℕ) (facts added : List Fact) → Adds moment facts added →
        Along StartsAsNext facts added }
    ensures one_holder { (moment : ℕ) (facts added : List Fact) → Adds moment facts added →
        HasOneHolder facts → Along StillOneHolder facts added }
    ensures no_gap { (moment : ℕ) (facts : List Fact) → IsDue facts moment None →
        (run stage : ℕ) → ¬ Gap facts moment run stage }
    ensures once { (moment : ℕ) (facts added : List Fact) → Adds moment facts added →
        IsOnce added }
    ensures bounded { (moment : ℕ) (facts added : List Fact) → Adds moment facts added →
        length added ≤ allowed facts }
    ensures one { (moment : ℕ) (facts left right : List Fact) → Settles moment facts left →
        Settles moment facts right → left ≡ right }
{
    due_laws();
}
