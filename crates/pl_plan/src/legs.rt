ghost use Rattle.std.specs.Prelude.{◌≡◌, ◌∷◌, [], IfOk};
ghost use Rattle.std.specs.List.{list_all};
ghost use Rattle.pl_base.specs.declared.value.Value.{out-Value};
ghost use Rattle.pl_expr.specs.Grammar.{is_name_byte};
ghost use Rattle.pl_schema_parts.specs.Names.{is_taken};
ghost use Rattle.pl_depends.specs.declared.fault.PlanCode.TheVariants.{BadLeg};
ghost use Rattle.pl_reading.specs.Answers as answers;
ghost use Rattle.pl_schema_parts.specs.Gives.{Gives, told};
ghost use Rattle.pl_schema_parts.specs.Rows.{in_turn};
ghost use Rattle.pl_depends.specs.Gives.{Faults, each_passes};
ghost use Rattle.pl_plan.specs.Legs as spec;
ghost use Rattle.pl_plan.specs.Legs.{AreLegsIn, AreLegsOf};
ghost use Rattle.pl_depends.specs.Places.{knows};

use pl_base::{ExactCopy, List, MarkedNode, MarkedPair, Memory, Text, Value};
use pl_depends::{Places, PlanCode, PlanFault, is_known, no_places, put};
use pl_schema::{JobSpec, LegSpec, SchemaFault, StageSpec, Variable, variable_in};
use pl_schema_parts::refusal;
use std::alloc::Global;

/// How long a leg's name may be, in bytes.
const LONGEST_NAME: usize = 100;

/// A leg of a job: its name, where the job was cut, and what it has besides the job's variables.
#[derive(Drop)]
pub struct Leg {
    pub name: Option<Text>,
    pub variables: List<Variable>,
}

/// The legs of a job as they are kept between being judged and being planned: those of a matrix,
/// and how many slices there are, so that they take no more than what is written.
#[derive(Drop)]
pub enum KeptLegs {
    One,
    Slices(u32),
    Matrix(List<Leg>),
}

/// The leg of a job that isn't cut.
pub fn only_leg(alloc: Global) -> Result<List<Leg>, Memory>
    ensures { IfOk result (λ legs. legs ≡ spec.only_leg ∷ []) }
{
    let mut legs = List::new(alloc);
    legs.push(Leg {
        name: None,
        variables: List::new(alloc),
    })?;
    Ok(legs)
}

fn told_number(alloc: Global, name: &str, number: u32) -> Result<Variable, Memory>
    ensures { IfOk result (λ variable. variable ≡ spec.told name.now number) }
{
    let name = Text::from_str(alloc, name)?;
    let value = Text::from_string(format!(in alloc; "{number}")?);
    Ok(Variable {
        name,
        value,
        late: None,
    })
}

fn slice(alloc: Global, count: u32, number: u32) -> Result<Leg, Memory>
    ensures { IfOk result (λ leg. leg ≡ spec.slice count number) }
{
    let mut variables = List::new(alloc);
    variables.push(told_number(alloc, "System.JobPositionInPhase", number)?)?;
    variables.push(told_number(alloc, "System.TotalJobsInPhase", count)?)?;
    let name = Text::from_string(format!(in alloc; "job_{number}")?);
    Ok(Leg {
        name: Some(name),
        variables,
    })
}

/// The slices of a job that is cut into so many.
pub fn slices(alloc: Global, count: u32) -> Result<List<Leg>, Memory>
    ensures { IfOk result (λ legs. legs ≡ spec.first_slices count count) }
{
    let mut legs = List::new(alloc);
    for before in 0..count {
        legs.push(slice(alloc, count, before + 1)?)?;
    }
    Ok(legs)
}

/// Whether a text is a leg's name: a letter, then letters, digits and `_`, at most 100 bytes.
fn is_leg_name(text: &Text) -> bool
    ensures { result ≡ spec.is_leg_name text.now }
{
    let bytes = text.as_bytes();
    begins_with_letter(bytes) && are_name_bytes(bytes) && bytes.len() <= LONGEST_NAME
}

fn begins_with_letter(bytes: &[u8]) -> bool
    ensures { result ≡ spec.begins_with_letter bytes.now }
{
    match bytes {
        [first, ..] => first.is_ascii_alphabetic(),
        [] => false,
    }
}

fn are_name_bytes(bytes: &[u8]) -> bool
    ensures { result ≡ list_all is_name_byte bytes.now }
{
    bytes
        .iter()
        .all(|byte| byte.is_ascii_alphanumeric() || *byte == b'_')
}

/// The refusal of a leg, at its name.
fn bad_leg(alloc: Global, leg: &MarkedPair) -> PlanFault
    ensures { Faults result (Some (BadLeg, leg.now.key_origin.source)) }
{
    refusal(alloc, PlanCode::BadLeg, &leg.key_origin.source)
}

fn leg_variable(alloc: Global, leg: &MarkedPair, pair: &MarkedPair) -> Result<Variable, PlanFault>
    ensures { Gives result (spec.leg_variable leg.now pair.now) }
{
    match variable_in(alloc, pair.key.copy(alloc)?, &pair.item) {
        Ok(variable) => Ok(variable),
        Err(SchemaFault::Refused(_, _)) => Err(bad_leg(alloc, leg)),
        Err(SchemaFault::Memory) => Err(PlanFault::Memory),
    }
}

fn variables_of(
    alloc: Global,
    leg: &MarkedPair,
    pairs: &[MarkedPair],
) -> Result<List<Variable>, PlanFault>
    ensures { Gives result
        (in_turn (λ before pair. spec.leg_variable leg.now pair) [] pairs.now) }
{
    let mut variables = List::new(alloc);
    for pair in pairs {
        variables.push(leg_variable(alloc, leg, pair)?)?;
    }
    Ok(variables)
}

/// The variables of a leg.
#[tactic(auto, unfolding(crate::specs::Legs::leg_variables))]
fn leg_variables(alloc: Global, leg: &MarkedPair) -> Result<List<Variable>, PlanFault>
    ensures { Gives result (spec.leg_variables leg.now) }
{
    match &leg.item.value {
        Value::Object(pairs) => variables_of(alloc, leg, pairs.as_slice()),
        Value::Null => Ok(List::new(alloc)),
        Value::Str(text) if text.is_empty() => Ok(List::new(alloc)),
        _ => Err(bad_leg(alloc, leg)),
    }
}

/// A leg of a matrix, whose name none of those has.
#[tactic(auto, unfolding(crate::specs::Legs::matrix_leg))]
fn matrix_leg(alloc: Global, names: &Places, leg: &MarkedPair) -> Result<Leg, PlanFault>
    ensures { Gives result (spec.matrix_leg (knows names.now) leg.now) }
{
    if !is_leg_name(&leg.key) || is_known(alloc, names, &leg.key)? {
        return Err(bad_leg(alloc, leg));
    }
    let variables = leg_variables(alloc, leg)?;
    let name = leg.key.copy(alloc)?;
    Ok(Leg {
        name: Some(name),
        variables,
    })
}

fn matrix_legs(alloc: Global, legs: &[MarkedPair]) -> Result<List<Leg>, PlanFault>
    ensures { Gives result (in_turn
        (λ legs leg. spec.matrix_leg (is_taken (spec.leg_names legs)) leg) [] legs.now) }
{
    let mut names = no_places(alloc);
    let mut made = List::new(alloc);
    for leg in legs {
        made.push(matrix_leg(alloc, &names, leg)?)?;
        put(alloc, &mut names, &leg.key, List::new(alloc))?;
    }
    Ok(made)
}

fn matrix_of(alloc: Global, node: &MarkedNode) -> Result<List<Leg>, PlanFault>
    ensures { Gives result (spec.matrix_of node.now (out-Value node.now.value)) }
{
    match &node.value {
        Value::Object(legs) if !legs.is_empty() => matrix_legs(alloc, legs.as_slice()),
        _ => Err(refusal(alloc, PlanCode::BadLeg, &node.origin.source)),
    }
}

/// The legs of a job as they are kept.
#[tactic(auto, unfolding(crate::specs::Legs::legs_in))]
fn legs_in(alloc: Global, legs: &LegSpec) -> Result<KeptLegs, PlanFault>
    ensures { answers.Gives told spec.all_legs result (spec.legs_in legs.now) }
{
    match legs {
        LegSpec::One => Ok(KeptLegs::One),
        LegSpec::Parallel(count) => Ok(KeptLegs::Slices(*count)),
        LegSpec::Matrix(node) => Ok(KeptLegs::Matrix(matrix_of(alloc, node)?)),
    }
}

fn legs_of_job(alloc: Global, job: &JobSpec) -> Result<KeptLegs, PlanFault>
    ensures judged { answers.Gives told (λ kept. tt) result (spec.legs_judged job.now) }
    ensures kept { IfOk result (λ kept. spec.all_legs kept ≡ spec.legs_of job.now.legs) }
{
    legs_in(alloc, &job.legs)
}

fn legs_of_jobs(alloc: Global, jobs: &[JobSpec]) -> Result<List<KeptLegs>, PlanFault>
    ensures judged { answers.Gives told (λ kept. tt) result
        (each_passes spec.legs_judged jobs.now) }
    ensures kept { IfOk result (AreLegsOf jobs.now) }
{
    let mut kept = List::new(alloc);
    for job in jobs {
        kept.push(legs_of_job(alloc, job)?)?;
    }
    Ok(kept)
}

/// The legs of all jobs, stage by stage. Refuses the first leg that isn't one, or the first matrix
/// without a leg.
pub fn legs_of_stages(
    alloc: Global,
    stages: &[StageSpec],
) -> Result<List<List<KeptLegs>>, PlanFault>
    ensures judged { answers.Gives told (λ kept. tt) result (spec.all_legs_judged stages.now) }
    ensures kept { IfOk result (AreLegsIn stages.now) }
{
    let mut kept = List::new(alloc);
    for stage in stages {
        kept.push(legs_of_jobs(alloc, stage.jobs.as_slice())?)?;
    }
    Ok(kept)
}
