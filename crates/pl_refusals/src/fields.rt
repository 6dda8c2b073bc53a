//! What each rule tells beside its name. Memory where memory is wanting.

ghost use Rattle.std.specs.Prelude.{◌≡◌, ◌++◌, ◌∷◌, [], codes, map, IfOk};
ghost use Rattle.pl_json.specs.declared.json.Json.TheVariants as json;
ghost use Rattle.pl_refusals.specs.Names.{role_name};
ghost use Rattle.pl_refusals.specs.Rows.{fields_of, number, text, texts};
ghost use Rattle.pl_rules.specs.declared.rule.Rule.TheVariants as told;

use crate::names::{day_name, outcome_name, role_name, state_name, verdict_name};
use crate::parts::{
    number, one, place_object, resource, stage_at, stage_objects, text, text_or_null, texts, three,
    two, word,
};
use pl_base::{List, Memory, Outcome, Refusal, Text};
use pl_json::{Json, Member};
use pl_rules::{Day, Role, Rule};
use std::alloc::Global;

/// What a rule tells beside its name, as members of its object. Memory where memory is wanting.
pub fn fields_of(alloc: Global, rule: &Rule) -> Result<List<Member<Json>>, Memory>
    ensures { IfOk result (λ fields. fields ≡ fields_of rule.now) }
{
    match rule {
        Rule::JobEnded { result, by } => ended(alloc, *result, by),
        Rule::JobTaken { agent } => one_text(alloc, "agent", agent),
        Rule::AgentBusy { run, stage, job } => busy(alloc, *run, stage, job),
        Rule::PoolMismatch { have, need } => mismatch(alloc, have, need),
        Rule::CapabilityMissing { name } => one_text(alloc, "name", name),
        Rule::StageDepends { stage } => one_text(alloc, "stage", stage),
        Rule::PermissionMissing { resource: told } => resource(alloc, told),
        Rule::ApprovalOpen { have, need } => open(alloc, *have, *need),
        Rule::HoursClosed { day, minute } => closed(alloc, *day, *minute),
        Rule::LockHeld { run, stage } => stage_at(alloc, *run, stage),
        Rule::LockBehind { run, stage } => stage_at(alloc, *run, stage),
        Rule::JobDepends { job } => one_text(alloc, "job", job),
        Rule::ParallelFull { limit } => one_number(alloc, "limit", u64::from(*limit)),
        Rule::TemplateArgument { job, step } => step_of(alloc, job, *step),
        Rule::BranchRefused { git_ref } => one_text(alloc, "ref", git_ref),
        Rule::ApprovalRejected { approver } => one_text(alloc, "approver", approver),
        Rule::LockSuperseded { run } => one_number(alloc, "run", *run),
        Rule::RoleMissing { need } => needed(alloc, need),
        Rule::DecisionClosed { state } => one_word(alloc, "state", state_name(*state)),
        Rule::DecisionChanged { approve } => one_word(alloc, "verdict", verdict_name(*approve)),
        Rule::ReportStranger { agent } => stranger(alloc, agent),
        Rule::ReportChanged { result } => one_word(alloc, "result", outcome_name(*result)),
        Rule::ResourceBusy { stages } => stages_on(alloc, stages),
        Rule::TokenTaken { name } => one_text(alloc, "name", name),
        Rule::ResourceUnknown { resource: told } => resource(alloc, told),
        Rule::CompileRefused { refusal } => refused(alloc, refusal),
        _ => Ok(List::new(alloc)),
    }
}

/// One text of these characters.
fn one_word(alloc: Global, name: &str, told: &str) -> Result<List<Member<Json>>, Memory>
    ensures { IfOk result (λ fields. fields ≡ text name.now told.now ∷ []) }
{
    one(alloc, word(alloc, name, told)?)
}

/// One text.
fn one_text(alloc: Global, name: &str, told: &Text) -> Result<List<Member<Json>>, Memory>
    ensures { IfOk result (λ fields. fields ≡ text name.now told.now ∷ []) }
{
    one(alloc, text(alloc, name, told)?)
}

/// One number.
fn one_number(alloc: Global, name: &str, told: u64) -> Result<List<Member<Json>>, Memory>
    ensures { IfOk result (λ fields. fields ≡ number name.now told ∷ []) }
{
    one(alloc, number(alloc, name, told)?)
}

fn ended(alloc: Global, outcome: Outcome, by: &Text) -> Result<List<Member<Json>>, Memory>
    ensures { IfOk result (λ fields. fields ≡ fields_of (told.JobEnded outcome by.now)) }
{
    let by = text(alloc, "by", by)?;
    let outcome = word(alloc, "result", outcome_name(outcome))?;
    two(alloc, by, outcome)
}

fn busy(alloc: Global, run: u64, stage: &Text, job: &Text) -> Result<List<Member<Json>>, Memory>
    ensures { IfOk result (λ fields. fields ≡ fields_of (told.AgentBusy run stage.now job.now)) }
{
    let job = text(alloc, "job", job)?;
    let run = number(alloc, "run", run)?;
    let stage = text(alloc, "stage", stage)?;
    three(alloc, job, run, stage)
}

fn mismatch(alloc: Global, have: &Text, need: &Text) -> Result<List<Member<Json>>, Memory>
    ensures { IfOk result (λ fields. fields ≡ fields_of (told.PoolMismatch have.now need.now)) }
{
    let have = text(alloc, "have", have)?;
    let need = text(alloc, "need", need)?;
    two(alloc, have, need)
}

fn open(alloc: Global, have: u64, need: u32) -> Result<List<Member<Json>>, Memory>
    ensures { IfOk result (λ fields. fields ≡ fields_of (told.ApprovalOpen have need)) }
{
    let have = number(alloc, "have", have)?;
    let need = number(alloc, "need", u64::from(need))?;
    two(alloc, have, need)
}

fn closed(alloc: Global, day: Day, minute: u32) -> Result<List<Member<Json>>, Memory>
    ensures { IfOk result (λ fields. fields ≡ fields_of (told.HoursClosed day minute)) }
{
    let day = word(alloc, "day", day_name(day))?;
    let minute = number(alloc, "minute", u64::from(minute))?;
    two(alloc, day, minute)
}

fn step_of(alloc: Global, job: &Text, step: u32) -> Result<List<Member<Json>>, Memory>
    ensures { IfOk result (λ fields. fields ≡ fields_of (told.TemplateArgument job.now step)) }
{
    let job = text(alloc, "job", job)?;
    let step = number(alloc, "step", u64::from(step))?;
    two(alloc, job, step)
}

fn needed(alloc: Global, need: &List<Role>) -> Result<List<Member<Json>>, Memory>
    ensures { IfOk result (λ fields. fields ≡ fields_of (told.RoleMissing need.now)) }
{
    let need = role_names(alloc, need)?;
    one(alloc, Member::new(alloc, "need", need)?)
}

/// Roles by their names as an array, in order.
fn role_names(alloc: Global, need: &List<Role>) -> Result<Json, Memory>
    ensures { IfOk result (λ made. made ≡ texts (map role_name need.now)) }
{
    let mut items = List::new(alloc);
    for role in need.as_slice() {
        items.push(Json::text(alloc, role_name(*role))?)?;
    }
    Ok(Json::Array(items))
}

fn stranger(alloc: Global, agent: &Option<Text>) -> Result<List<Member<Json>>, Memory>
    ensures { IfOk result (λ fields. fields ≡ fields_of (told.ReportStranger agent.now)) }
{
    let agent = text_or_null(alloc, agent)?;
    one(alloc, Member::new(alloc, "agent", agent)?)
}

fn stages_on(alloc: Global, stages: &List<(u64, Text)>) -> Result<List<Member<Json>>, Memory>
    ensures { IfOk result (λ fields. fields ≡ fields_of (told.ResourceBusy stages.now)) }
{
    let stages = stage_objects(alloc, stages)?;
    one(alloc, Member::new(alloc, "stages", stages)?)
}

fn refused(alloc: Global, refusal: &Refusal) -> Result<List<Member<Json>>, Memory>
    ensures { IfOk result (λ fields. fields ≡ fields_of (told.CompileRefused refusal.now)) }
{
    let place = place_object(alloc, &refusal.place)?;
    let at = Member::new(alloc, "at", place)?;
    let code = text(alloc, "code", &refusal.code)?;
    let detail = texts(alloc, &refusal.detail)?;
    three(alloc, at, code, Member::new(alloc, "detail", detail)?)
}
