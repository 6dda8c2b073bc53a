ghost use Rattle.std.specs.Prelude.{◌≡◌, ◌↔◌, ℕ, List, Option, None};
ghost use Rattle.pl_due.specs.Due.{IsDue};
ghost use Rattle.pl_facts.specs.declared.fact.Fact.{Fact};
ghost use Rattle.pl_granting.specs.Broken.{Broken};
ghost use Rattle.pl_granting.specs.Drawn.{Drawn};
ghost use Rattle.pl_granting.specs.Grantable.{AreDone, IsGrantable};
ghost use Rattle.pl_granting.specs.Named.{IsJobOf, JobOf};
ghost use Rattle.pl_requests.specs.declared.settings.AgentSetting.{AgentSetting};
ghost use Rattle.pl_rules.specs.declared.rule.Rule.{Rule};

use pl_checks::verdict_laws;
use pl_settling::settling_laws;

/// Laws of who is given which job.
///
/// Where nothing is due, and every job of a stage that was started and has ended has ended too, no
/// rule is broken exactly where the agent holds the job already or may be given it, said without an
/// order of rules. And facts, a moment, an agent and a job leave no choice in the first rule that
/// is broken; facts and an agent leave none in the job that is drawn.
pub fn granting_laws()
    ensures exactly { (facts : List Fact) (moment : ℕ) (agent : AgentSetting) (at : JobOf) →
        IsJobOf facts at → AreDone facts → IsDue facts moment None →
        Broken facts moment agent at None ↔ IsGrantable facts agent at }
    ensures one { (facts : List Fact) (moment : ℕ) (agent : AgentSetting) (at : JobOf)
        (left right : Option Rule) → Broken facts moment agent at left →
        Broken facts moment agent at right → left ≡ right }
    ensures one_drawn { (facts : List Fact) (agent : AgentSetting) (left right : Option JobOf) →
        Drawn facts agent left → Drawn facts agent right → left ≡ right }
{
    verdict_laws();
    settling_laws();
}
