//! A rehearsal, part by part.

ghost use Rattle.std.specs.Prelude.{◌≡◌, length, IfOk, OnOk};
ghost use Rattle.pl_rehearsing.specs.Parts.{Begins, Queues, Reports, Works};
ghost use Rattle.pl_rehearsing.specs.Rehearsal.{Rehearsal, report_of};

use crate::asking::Asker;
use crate::drawn::job_in;
use pl_base::{Digest, List, Memory, Moment, Outcome, Shared};
use pl_generated::{first_request, next_request};
use pl_requests::{JobName, Reply, Report, Request, is_request};
use pl_sessions::Desk;
use std::alloc::Global;

/// The moment of the first request: 2024-01-01T00:00:00Z.
const FIRST_MOMENT: Moment = 1_704_067_200;

/// Rehearses on a desk, as a caller with this token's digest: the pool `Default` is made exclusive,
/// so many runs are queued, and then a job is drawn and reported as succeeded, one after the other,
/// until a draw gives none. It answers how many were reported. Memory where memory is wanting, where
/// what the desk keeps fails, where a draw is answered otherwise than with a job or that there is
/// none, or behind the last moment that a clock tells.
pub fn rehearse_on<D: Desk>(
    alloc: Global,
    desk: &mut D,
    caller: Digest,
    runs: u64,
) -> Result<u64, Memory>
    ensures { IfOk result (λ jobs. (one : Rehearsal D.acts caller runs desk.old desk.new)
        × (jobs ≡ length one.worked)) }
{
    let mut asker = Asker {
        caller,
        moment: FIRST_MOMENT,
    };
    begin(alloc, desk, &mut asker, runs)?;
    let jobs = work(alloc, desk, &mut asker)?;
    Ok(jobs)
}

/// Asks the generated input.
fn begin<D: Desk>(alloc: Global, desk: &mut D, asker: &mut Asker, runs: u64) -> Result<(), Memory>
    ensures { OnOk result (Begins D.acts runs desk.old asker.old desk.new asker.new) }
{
    set_pool(alloc, desk, asker)?;
    for number in 0..runs {
        queue(alloc, desk, asker, number + 1)?;
    }
    Ok(())
}

/// Sets the pool that all runs use.
fn set_pool<D: Desk>(alloc: Global, desk: &mut D, asker: &mut Asker) -> Result<(), Memory>
    ensures { OnOk result (Begins D.acts 0 desk.old asker.old desk.new asker.new) }
{
    let request = first_request(alloc)?;
    asker.ask(alloc, desk, request)?;
    Ok(())
}

/// Queues the run of this number.
fn queue<D: Desk>(alloc: Global, desk: &mut D, asker: &mut Asker, number: u64) -> Result<(), Memory>
    ensures { OnOk result (Queues D.acts number desk.old asker.old desk.new asker.new) }
{
    let request = next_request(alloc, number)?;
    asker.ask(alloc, desk, request)?;
    Ok(())
}

/// Draws and reports until a draw gives no job, and answers how many were reported.
fn work<D: Desk>(alloc: Global, desk: &mut D, asker: &mut Asker) -> Result<u64, Memory>
    ensures { IfOk result (λ jobs. Works D.acts jobs desk.old asker.old desk.new asker.new) }
{
    for jobs in 0..u64::MAX {
        let drawn = asker.ask(alloc, desk, Request::Draw)?;
        if drawn.status == 204 {
            return Ok(jobs);
        }
        report(alloc, desk, asker, drawn)?;
    }
    Err(Memory)
}

/// Reports the job that a draw gave.
fn report<D: Desk>(
    alloc: Global,
    desk: &mut D,
    asker: &mut Asker,
    drawn: Reply,
) -> Result<(), Memory>
    ensures { OnOk result (Reports D.acts drawn desk.old asker.old desk.new asker.new) }
{
    if drawn.status != 200 {
        return Err(Memory);
    }
    let Some(job) = job_in(alloc, &drawn.body)? else {
        return Err(Memory);
    };
    let request = report_of(alloc, job)?;
    if !is_request(alloc, &request)? {
        return Err(Memory);
    }
    asker.ask(alloc, desk, request)?;
    Ok(())
}

/// The report that a job succeeded, without outputs.
fn report_of(alloc: Global, job: JobName) -> Result<Request, Memory>
    ensures { IfOk result (λ request. request ≡ report_of job) }
{
    let report = Report {
        outcome: Outcome::Succeeded,
        outputs: List::new(alloc),
    };
    let report = Shared::new(alloc, report)?;
    Ok(Request::Report { job, report })
}
