//! What all checks of a stage say.

ghost use Rattle.std.specs.Prelude.{◌≤◌, ◌++◌, List, IfOk, OnOk, filter, flat_map};
ghost use Rattle.pl_checks.specs.declared.check.Check.{Check as Guard};
ghost use Rattle.pl_due.specs.Asked.{IsAsked, IsJudged, facts_of};
ghost use Rattle.pl_due.specs.Checked as spec;
ghost use Rattle.pl_judgement.specs.Kinds.{is_of};
ghost use Rattle.pl_judgement.specs.Said.{IsJudgement};

use crate::checked::{are_unguarded, checks_on};
use crate::stage_at::StageAt;
use pl_base::{Memory, ResourceKey};
use pl_checks::CheckView;
use pl_judgement::{CheckKind, Judgement};
use pl_views::{check_view, readiness_laws};
use std::alloc::Global;

/// What the checks of all that a stage uses say of it. What they see is gathered only where there
/// is a check.
pub(crate) fn judgement(alloc: Global, at: &StageAt<'_>) -> Result<Judgement, Memory>
    requires { IsAsked at.now }
    ensures { IfOk result (IsJudged at.now) }
{
    if are_unguarded(at.journal, at.planned.uses.as_slice()) {
        return Ok(Judgement::new());
    }
    readiness_laws();
    let view = check_view(alloc, at.journal, at.queued, at.planned, at.run, at.stage)?;
    ask_all(alloc, at, &view)
}

/// Asks all checks, kind after kind.
fn ask_all(alloc: Global, at: &StageAt<'_>, view: &CheckView) -> Result<Judgement, Memory>
    requires asked { IsAsked at.now }
    requires ready { view.now.ready ≤ 4102444799 }
    ensures { IfOk result (IsJudgement (spec.all_checks (facts_of at.now) at.now.planned.now.uses)
        view.now at.now.moment) }
{
    let mut judgement = Judgement::new();
    let uses = at.planned.uses.as_slice();
    ask_kind(
        alloc,
        &mut judgement,
        at,
        uses,
        view,
        CheckKind::RequiredTemplate,
    )?;
    ask_kind(alloc, &mut judgement, at, uses, view, CheckKind::Branch)?;
    ask_kind(alloc, &mut judgement, at, uses, view, CheckKind::Approval)?;
    ask_kind(alloc, &mut judgement, at, uses, view, CheckKind::Hours)?;
    Ok(judgement)
}

/// Asks the checks of one kind of some resources. After Memory some of them were asked.
fn ask_kind(
    alloc: Global,
    judgement: &mut Judgement,
    at: &StageAt<'_>,
    uses: &[ResourceKey],
    view: &CheckView,
    kind: CheckKind,
) -> Result<(), Memory>
    requires asked { IsAsked at.now }
    requires ready { view.now.ready ≤ 4102444799 }
    ensures { (before : List Guard) → IsJudgement before view.now at.now.moment judgement.old →
        OnOk result (IsJudgement (before ++ filter (is_of kind)
        (flat_map (spec.checks_on (facts_of at.now)) uses.now)) view.now at.now.moment
        judgement.new) }
{
    for key in uses {
        judgement.ask(alloc, checks_on(at.journal, key), kind, view, at.moment)?;
    }
    Ok(())
}
