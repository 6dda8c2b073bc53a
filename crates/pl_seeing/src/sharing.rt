//! Compiles that runs of the same sources share.

ghost use Rattle.std.specs.Prelude.{◌≡◌, ◌<◌, ◌≤◌, length, IfErr, IfOk};
ghost use Rattle.std.specs.List.{HoldsAt};
ghost use Rattle.pl_seeing.specs.Seeing.{sources_of, IsMadeBy, IsMadeOf};
ghost use Rattle.pl_seeing.specs.Sharing.{AreOwn};

use crate::making::compiled_of;
use crate::ordering::sources_order;
use crate::same::are_same;
use pl_base::{ExactCopy, Memory, Shared};
use pl_keeper::{KeptRun, Record};
use pl_plan::Compiled;
use std::alloc::Global;

/// The compiles that were made, in the order of their sources, and the place of the one that was
/// asked for last.
#[derive(Drop)]
pub(crate) struct Made {
    pub(crate) all: Vec<Shared<Compiled>>,
    last: usize,
}

impl Made {
    /// None was made yet.
    pub(crate) fn new(alloc: Global) -> Made
        ensures { AreOwn result.all.items }
    {
        Made {
            all: Vec::new(alloc),
            last: 0,
        }
    }
}

/// The compile of a row's sources, where it is a run's; what was made before is looked through, and
/// what is made is kept. Memory where memory is wanting.
pub(crate) fn made_by(
    alloc: Global,
    made: &mut Made,
    kept: &Option<Record>,
) -> Result<Option<Shared<Compiled>>, Memory>
    requires own { AreOwn made.old.all.items }
    ensures own { AreOwn made.new.all.items }
    ensures made { IfOk result (IsMadeBy kept.now) }
{
    match kept {
        Some(Record::Run(told)) => shared(alloc, made, told),
        _ => Ok(None),
    }
}

/// The place of the compile that has the same sources as a run, or the place at which it would be
/// kept.
fn place_of(made: &[Shared<Compiled>], told: &KeptRun) -> Result<usize, usize>
    ensures within { IfOk result (λ at. at < length made.now) }
    ensures found { IfOk result
        (λ at. HoldsAt (λ one. one.sources ≡ sources_of told.now) made.now at) }
    ensures free { IfErr result (λ at. at ≤ length made.now) }
{
    match made.binary_search_by(|one| sources_order(&one.sources, told)) {
        Ok(at) if are_same(told, &made[at].sources) => Ok(at),
        Ok(at) | Err(at) => Err(at),
    }
}

/// The same; the compile at a place, that of the run in front, is looked at before all others.
fn place_near(made: &[Shared<Compiled>], near: usize, told: &KeptRun) -> Result<usize, usize>
    ensures within { IfOk result (λ at. at < length made.now) }
    ensures found { IfOk result
        (λ at. HoldsAt (λ one. one.sources ≡ sources_of told.now) made.now at) }
    ensures free { IfErr result (λ at. at ≤ length made.now) }
{
    if near < made.len() && are_same(told, &made[near].sources) {
        return Ok(near);
    }
    place_of(made, told)
}

/// The compile of a run's sources.
fn shared(
    alloc: Global,
    made: &mut Made,
    told: &KeptRun,
) -> Result<Option<Shared<Compiled>>, Memory>
    requires own { AreOwn made.old.all.items }
    ensures own { AreOwn made.new.all.items }
    ensures made { IfOk result (IsMadeOf (sources_of told.now)) }
{
    let at = match place_near(made.all.as_slice(), made.last, told) {
        Ok(at) => {
            made.last = at;
            return Ok(Some(made.all[at].copy(alloc)?));
        }
        Err(at) => at,
    };
    let Some(compiled) = compiled_of(alloc, told)? else {
        return Ok(None);
    };
    made.all.insert(at, compiled.copy(alloc)?)?;
    made.last = at;
    Ok(Some(compiled))
}
