//! The step.

ghost use Rattle.std.specs.Prelude.{◌≡◌, ◌≤◌, List as list, IfOk, OnErr, OnOk, length};
ghost use Rattle.pl_decisions.specs.Below.pl_due.specs.Fit.{AreFit, last_moment};
ghost use Rattle.pl_facts.specs.declared.fact.Fact.{Fact as Told};
ghost use Rattle.pl_step.specs.Fits.{CanRunMade};
ghost use Rattle.pl_step.specs.Full.{with_facts};
ghost use Rattle.pl_row_changes.specs.Changing.{AreOfEntry};
ghost use Rattle.pl_rules.specs.declared.rule.Rule.TheVariants as rules;
ghost use Rattle.pl_step.specs.Step.{IsStep, Serves, forbidden, refusing};

use crate::answering::answer;
use crate::callers::{may_call, wanted_roles};
use crate::entering::{enter, push_event, settle_for};
use crate::held::Held;
use crate::stepped::{Entered, Stepped};
use pl_answers::Answer;
use pl_base::{ExactCopy, List, Memory, Refusal, Shared, Text};
use pl_open_runs::IndexedJournal;
use pl_plan::Compiled;
use pl_requests::{Call, Request, Rule};
use std::alloc::Global;

/// What a queued request was compiled to, if something was compiled.
pub type Made = Option<Result<Shared<Compiled>, Refusal>>;

/// A call by somebody who may make it. What is left after Memory isn't told, but that it is what
/// there was with facts behind it.
fn serve(
    alloc: Global,
    journal: &mut IndexedJournal,
    held: &Held,
    call: &Call,
    who: &Text,
    made: Made,
) -> Result<Entered, Memory>
    requires moment { call.now.moment ≤ last_moment }
    requires fit { AreFit journal.old.facts }
    requires can_run { CanRunMade made }
    requires installed { journal.old.installed ≡ length journal.old.facts }
    ensures ok { IfOk result (λ entered.
        Serves held.now journal.old call.now made who.now entered.stepped
        × (journal.new ≡ with_facts journal.old entered.stepped.added)) }
    ensures rows { IfOk result (λ entered. AreOfEntry held.now.change entered.rows.next
        journal.old entered.stepped.added entered.rows.changes) }
    ensures err { OnErr result ((more : list Told) × (journal.new ≡ with_facts journal.old more)) }
    ensures fit { AreFit journal.new.facts }
{
    let from = journal.journal().len();
    settle_for(alloc, journal, &call.request, call.moment)?;
    let Answer { reply, event } = answer(alloc, journal, call.moment, who, made, &call.request)?;
    push_event(journal, call.moment, event)?;
    enter(alloc, journal, held, &call.request, reply, from)
}

/// 401 `token.unknown`.
fn unknown(alloc: Global) -> Result<Stepped, Memory>
    ensures { IfOk result (λ stepped. stepped ≡ refusing 401 rules.TokenUnknown) }
{
    Stepped::refusing(alloc, 401, &Rule::TokenUnknown)
}

/// 403 `role.missing`, with the roles of which the caller needs one.
fn forbidden(alloc: Global, request: &Request) -> Result<Stepped, Memory>
    ensures { IfOk result (λ stepped. stepped ≡ forbidden request.now) }
{
    let need = List::from_slice(alloc, wanted_roles(request))?;
    Stepped::refusing(alloc, 403, &Rule::RoleMissing { need })
}

/// What a call is answered, and the facts that it adds, which stand behind the others then, with
/// what they change among the kept rows; where it adds none the journal is as it was, and after
/// Memory too.
///
/// In this order: 401 `token.unknown` where no principal has the caller's token; 403 `role.missing`
/// where the caller has none of the route's roles; what is due is settled, but for a shutdown; the
/// request is answered on the settled facts. Where facts come of it they are one entry: 409
/// `journal.full` where it would be one too many since the opening, the texts of all entries too
/// long, or a number has more than 18 digits, and then nothing is added, nor what was due. `made`
/// is what the request's pipeline was compiled to, if the request queues a run and the pipeline is
/// there.
///
/// All facts are installed before. Their moments are those that a clock tells and their runs' plans
/// can run, as `pl_due::due` asks, and so is the call's moment and the plan that was made; the same
/// holds of all facts afterwards.
pub fn step(
    alloc: Global,
    journal: &mut IndexedJournal,
    held: &Held,
    call: &Call,
    made: Made,
) -> Result<Entered, Memory>
    requires moment { call.now.moment ≤ last_moment }
    requires fit { AreFit journal.old.facts }
    requires can_run { CanRunMade made }
    requires installed { journal.old.installed ≡ length journal.old.facts }
    ensures ok { IfOk result (λ entered. IsStep held.now journal.old call.now made entered.stepped
        × (journal.new ≡ with_facts journal.old entered.stepped.added)) }
    ensures rows { IfOk result (λ entered. AreOfEntry held.now.change entered.rows.next
        journal.old entered.stepped.added entered.rows.changes) }
    ensures err { OnErr result (journal.new ≡ journal.old) }
    ensures fit { AreFit journal.new.facts }
{
    let name = match journal.journal().principal_with(&call.caller) {
        Some(who) if may_call(who, &call.request) => who.name.copy(alloc)?,
        Some(_) => return Ok(forbidden(alloc, &call.request)?.alone(alloc, held.change)),
        None => return Ok(unknown(alloc)?.alone(alloc, held.change)),
    };
    match serve(alloc, journal, held, call, &name, made) {
        Ok(entered) => Ok(entered),
        Err(Memory) => {
            journal.back_to_installed();
            Err(Memory)
        }
    }
}
