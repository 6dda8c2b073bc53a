ghost use Rattle.std.specs.Prelude.{◌≡◌, [], IfOk};
ghost use Rattle.pl_alone.specs.Below.pl_history.specs.History.{opened};
ghost use Rattle.pl_rehearsal.specs.Summary.{IsSummary};

use crate::counting::superseded_in;
use crate::summary::Summary;
use pl_alone::Alone;
use pl_base::{Digest, List, Memory};
use pl_keeper::MemKeeper;
use pl_rehearsing::rehearse_on;
use std::alloc::Global;

/// Rehearses so many runs on a service of its own, which keeps its rows in memory and whose admin's
/// token has this digest.
///
/// Every pipeline may use the pool `Default`, one stage at a time. A run of each generated text is
/// queued, the number of which counts from 1: a stage `A` of a job with one to four legs and then a
/// stage `B` of one job, the runs of every other text being sequential. Then the admin draws a job
/// and reports that it succeeded, one after the other, until a draw gives none. Each request comes a
/// second after the one before, the first at 2024-01-01T00:00:00Z.
///
/// Memory where memory is wanting, or where a draw is answered neither with a job nor that there is
/// none.
pub fn rehearse(alloc: Global, admin: Digest, runs: u64) -> Result<Summary, Memory>
    ensures { IfOk result (IsSummary admin runs) }
{
    let mut desk = just_opened(alloc, admin)?;
    let jobs = rehearse_on(alloc, &mut desk, admin, runs)?;
    let superseded = superseded_in(desk.entries())?;
    Ok(Summary {
        runs,
        jobs,
        superseded,
    })
}

/// A service in which nothing has happened, over a keeper without rows.
fn just_opened(alloc: Global, admin: Digest) -> Result<Alone<MemKeeper>, Memory>
    ensures opening { IfOk result (λ desk. desk.service.core.opening ≡ opened admin) }
    ensures entries { IfOk result (λ desk. desk.service.core.entries ≡ []) }
    ensures rows { IfOk result (λ desk. desk.service.keeper.rows.items ≡ []) }
    ensures quiet { IfOk result (λ desk. desk.service.keeper.faults ≡ 0) }
{
    let keeper = MemKeeper::new(List::new(alloc), List::new(alloc));
    match Alone::open(alloc, keeper, admin) {
        Ok(desk) => Ok(desk),
        Err(_) => Err(Memory),
    }
}
