ghost use Rattle.std.specs.Prelude.{◌≡◌, ◌∷◌, ◌++◌, [], IfOk, OnOk, unwrap_or};
ghost use Rattle.pl_depends.specs.Places as spec;
ghost use Rattle.pl_depends.specs.Places.{also, knows, nowhere, places_under, under};

use pl_base::{List, Memory, Text, Value, in_upper_case};
use pl_schema::{JobSpec, LegSpec, StageSpec};
use std::alloc::Global;
use std::collections::BTreeMap;

/// Names, told apart without regard to the case of ASCII's letters, each with its places.
#[derive(Drop)]
pub struct Places {
    by_name: BTreeMap<Text, List<u32>>,
}

/// No names.
pub fn no_places(alloc: Global) -> Places
    ensures { under result ≡ nowhere }
{
    Places {
        by_name: BTreeMap::new(alloc),
    }
}

/// Puts a name with its places. One who has the name already keeps it.
pub fn put(alloc: Global, places: &mut Places, name: &Text, here: List<u32>) -> Result<(), Memory>
    ensures { OnOk result (under places.new ≡ also (under places.old) name.now here) }
{
    let name = Text::from_string(in_upper_case(alloc, name)?);
    if places.by_name.contains_key(&name) {
        return Ok(());
    }
    places.by_name.insert(name, here)?;
    Ok(())
}

/// Whether one has a name.
pub fn is_known(alloc: Global, places: &Places, name: &Text) -> Result<bool, Memory>
    ensures { IfOk result (λ is. is ≡ knows places.now name.now) }
{
    let name = Text::from_string(in_upper_case(alloc, name)?);
    let is = places.by_name.contains_key(&name);
    Ok(is)
}

/// Puts the places under a name, if one has it, behind those that were found.
pub fn push_under(
    alloc: Global,
    places: &Places,
    name: &Text,
    found: &mut List<u32>,
) -> Result<(), Memory>
    ensures { OnOk result
        (found.new ≡ found.old ++ unwrap_or (under places.now name.now) []) }
{
    let name = Text::from_string(in_upper_case(alloc, name)?);
    match places.by_name.get(&name) {
        Some(here) => push_all(found, here.as_slice()),
        None => Ok(()),
    }
}

fn push_all(found: &mut List<u32>, places: &[u32]) -> Result<(), Memory>
    ensures { OnOk result (found.new ≡ found.old ++ places.now) }
{
    for place in places {
        found.push(*place)?;
    }
    Ok(())
}

/// A place as a plan has it. A list that is longer than its numbers can tell wants memory.
pub fn place_of(at: usize) -> Result<u32, Memory>
    ensures { IfOk result (λ place. place ≡ at) }
{
    match u32::try_from(at) {
        Ok(place) => Ok(place),
        Err(_) => Err(Memory),
    }
}

/// One place alone.
pub fn one_place(alloc: Global, at: usize) -> Result<List<u32>, Memory>
    ensures { IfOk result (λ places. places ≡ at ∷ []) }
{
    let mut places = List::new(alloc);
    places.push(place_of(at)?)?;
    Ok(places)
}

/// So many places, from the first one on.
fn places_from(alloc: Global, first: usize, count: usize) -> Result<List<u32>, Memory>
    ensures { IfOk result (λ places. places ≡ spec.places_from first count) }
{
    let mut places = List::new(alloc);
    for passed in 0..count {
        let at = first.checked_add(passed).ok_or(Memory)?;
        places.push(place_of(at)?)?;
    }
    Ok(places)
}

/// Into how many legs a job is cut.
pub fn leg_count(legs: &LegSpec) -> usize
    ensures { result ≡ spec.leg_count legs.now }
{
    match legs {
        LegSpec::One => 1,
        LegSpec::Parallel(count) => *count as usize,
        LegSpec::Matrix(node) => match &node.value {
            Value::Object(pairs) => pairs.len(),
            _ => 0,
        },
    }
}

/// The stages by their names.
pub fn stage_places(alloc: Global, stages: &[StageSpec]) -> Result<Places, Memory>
    ensures { IfOk result
        (λ places. under places ≡ places_under (spec.stage_entries 0 stages.now)) }
{
    let mut places = no_places(alloc);
    for (at, stage) in stages.iter().enumerate() {
        put(alloc, &mut places, &stage.name, one_place(alloc, at)?)?;
    }
    Ok(places)
}

/// The jobs of a stage by their names.
pub fn job_places(alloc: Global, jobs: &[JobSpec]) -> Result<Places, Memory>
    ensures { IfOk result
        (λ places. under places ≡ places_under (spec.job_entries 0 jobs.now)) }
{
    let mut places = no_places(alloc);
    for (at, job) in jobs.iter().enumerate() {
        put(alloc, &mut places, &job.name, one_place(alloc, at)?)?;
    }
    Ok(places)
}

/// The jobs of a stage by their names, with the places of their legs.
pub fn leg_places(alloc: Global, jobs: &[JobSpec]) -> Result<Places, Memory>
    ensures { IfOk result
        (λ places. under places ≡ places_under (spec.leg_entries 0 jobs.now)) }
{
    let mut places = no_places(alloc);
    let mut first = 0;
    for job in jobs {
        let count = leg_count(&job.legs);
        put(
            alloc,
            &mut places,
            &job.name,
            places_from(alloc, first, count)?,
        )?;
        first = first.checked_add(count).ok_or(Memory)?;
    }
    Ok(places)
}
