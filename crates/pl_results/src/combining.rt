ghost use Rattle.std.specs.Prelude.{◌≡◌};
ghost use Rattle.pl_results.specs.Combining as spec;

use pl_base::Outcome;

/// What two results are together.
#[tactic(auto, unfolding(crate::specs::Combining::combined))]
pub fn worse(one: Outcome, other: Outcome) -> Outcome
    ensures { result ≡ spec.worse one other }
{
    match (one, other) {
        (Outcome::Failed, _) => Outcome::Failed,
        (_, Outcome::Failed) => Outcome::Failed,
        (Outcome::Canceled, _) => Outcome::Canceled,
        (_, Outcome::Canceled) => Outcome::Canceled,
        (Outcome::SucceededWithIssues, _) => Outcome::SucceededWithIssues,
        (_, Outcome::SucceededWithIssues) => Outcome::SucceededWithIssues,
        (Outcome::Succeeded, _) => Outcome::Succeeded,
        (_, Outcome::Succeeded) => Outcome::Succeeded,
        (Outcome::Skipped, Outcome::Skipped) => Outcome::Skipped,
    }
}

/// What several results are together, as those of a stage's jobs are the stage's: Failed if one is
/// there, else Canceled, else SucceededWithIssues, else Succeeded, else Skipped.
pub fn combined(results: &[Outcome]) -> Outcome
    ensures { result ≡ spec.combined results.now }
{
    let mut all = Outcome::Skipped;
    for result in results {
        all = worse(all, *result);
    }
    all
}
