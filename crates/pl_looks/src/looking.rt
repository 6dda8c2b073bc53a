ghost use Rattle.std.specs.Prelude.{◌≡◌, ◌≤◌, ◌∷◌, [], IfOk, flat_map};
ghost use Rattle.pl_due.specs.Fit.{AreFit, last_moment};
ghost use Rattle.pl_due.specs.Open.{of_run, runs, waits};
ghost use Rattle.pl_looks.specs.Looks.{IsLook};

use crate::found::{Found, found_in};
use crate::jobs::{Jobs, jobs_of};
use crate::quiet::run_until;
use crate::types::Look;
use pl_base::{Memory, Moment};
use pl_due::{Journal, Place, Running, contenders, stages_of};
use std::alloc::Global;

/// Looks at a run at a moment: what is due first in it, which of its stages may start as far as no
/// other stands in their way (where nothing is due in it), which run, which of its jobs wait for an
/// agent and which an agent holds. That stays so at each later moment before the one that is told,
/// where nothing happens to the run and no resource is set that its stages use (`look_laws`).
///
/// No other run is looked at. Each fact's moment is one that a clock tells, and each run's plan can
/// run, as `pl_due::due` asks. Memory comes where there is none, and nothing else.
pub fn look(alloc: Global, journal: &Journal, run: u64, moment: Moment) -> Result<Look, Memory>
    requires moment { moment ≤ last_moment }
    requires fit { AreFit journal.now.facts }
    ensures { IfOk result (IsLook journal.now.facts moment run) }
{
    let stages = stages_of(alloc, journal, &[run])?;
    let running = stages.running.as_slice();
    let waiting = stages.waiting.as_slice();
    look_at(alloc, journal, run, moment, running, waiting)
}

/// Looks at the stages of a run that run and at those that wait for no other.
fn look_at(
    alloc: Global,
    journal: &Journal,
    run: u64,
    moment: Moment,
    running: &[Place],
    waiting: &[Place],
) -> Result<Look, Memory>
    requires moment { moment ≤ last_moment }
    requires fit { AreFit journal.now.facts }
    requires running { running.now ≡
        flat_map (of_run journal.now.facts (runs journal.now.facts)) (run ∷ []) }
    requires waiting { waiting.now ≡
        flat_map (of_run journal.now.facts (waits journal.now.facts)) (run ∷ []) }
    ensures { IfOk result (IsLook journal.now.facts moment run) }
{
    let Found { first, eligible } = found_in(alloc, journal, run, moment, running, waiting)?;
    let holders = contenders(alloc, journal, moment, running, &Running)?;
    let Jobs { ready, taken } = jobs_of(alloc, journal, run, moment, running)?;
    let wakes = run_until(journal, run, moment);
    Ok(Look {
        first,
        eligible,
        holders,
        ready,
        taken,
        wakes,
    })
}
