ghost use Rattle.std.specs.Prelude.{◌≡◌, ◌↔◌, IfOk, IsTrue, All, MatchOption, map};
ghost use Rattle.pl_base.specs.Firsts.{IsFirstAt};
ghost use Rattle.pl_checks.specs.Provenance.{BeginsWith, IsLiteral, IsOwn, IsWritten};

use crate::view::StepMark;
use pl_base::{Crossing, FileKey, Memory, Origin};
use std::alloc::Global;

/// Whether a node crossed a border as it is written: no argument brought it, and no expression made
/// it.
fn is_written(crossing: &Crossing) -> bool
    ensures { IsTrue result ↔ IsWritten crossing.now }
{
    match crossing {
        Crossing::Extends(_) | Crossing::Include(_, _) => true,
        Crossing::Argument(_, _) | Crossing::Made => false,
    }
}

/// Whether a border is that of a file which the root extends.
fn is_extending(crossing: &Crossing, file: &FileKey) -> bool
    ensures { IsTrue result ↔ (crossing.now ≡ Crossing.Extends file.now) }
{
    match crossing {
        Crossing::Extends(extended) => **extended == *file,
        _ => false,
    }
}

/// Whether the first border that was crossed is that of a file which the root extends.
fn begins_with(crossings: &[&Crossing], file: &FileKey) -> bool
    ensures { IsTrue result ↔ BeginsWith file.now (map (λ crossing. crossing.now) crossings.now) }
{
    match crossings.first() {
        Some(first) => is_extending(first, file),
        None => false,
    }
}

/// Whether all borders were crossed as it is written.
fn are_written(crossings: &[&Crossing]) -> bool
    ensures { IsTrue result ↔ All (λ crossing. IsWritten crossing.now) crossings.now }
{
    crossings.iter().all(|crossing| is_written(crossing))
}

/// Whether a node that crossed these borders came through a file which the root extends, as it is
/// written there.
fn are_own(crossings: &[&Crossing], file: &FileKey) -> bool
    ensures { IsTrue result ↔ IsOwn file.now (map (λ crossing. crossing.now) crossings.now) }
{
    begins_with(crossings, file) && are_written(crossings)
}

/// The same of a node by its origin.
fn comes_as_written(alloc: Global, file: &FileKey, origin: &Origin) -> Result<bool, Memory>
    ensures { IfOk result (λ written. IsTrue written ↔ IsOwn file.now origin.now.crossings) }
{
    let crossings = origin.crossings.to_vec(alloc)?;
    Ok(are_own(&crossings, file))
}

/// Whether a step is from a file, and neither its mapping nor its first key was brought by an
/// argument or made by an expression.
fn is_literal(alloc: Global, file: &FileKey, step: &StepMark) -> Result<bool, Memory>
    ensures { IfOk result (λ literal. IsTrue literal ↔ IsLiteral file.now step.now) }
{
    let mapping = comes_as_written(alloc, file, &step.mapping)?;
    let key = comes_as_written(alloc, file, &step.key)?;
    Ok(mapping && key)
}

/// The place of the first step that isn't literal.
pub(crate) fn first_unwritten(
    alloc: Global,
    file: &FileKey,
    steps: &[StepMark],
) -> Result<Option<usize>, Memory>
    ensures { IfOk result (λ place. MatchOption place (All (IsLiteral file.now) steps.now)
        (IsFirstAt (λ step. ¬ IsLiteral file.now step) steps.now)) }
{
    for (place, step) in steps.iter().enumerate() {
        if !is_literal(alloc, file, step)? {
            return Ok(Some(place));
        }
    }
    Ok(None)
}
