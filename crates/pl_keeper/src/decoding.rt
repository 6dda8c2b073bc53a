ghost use Rattle.std.specs.Prelude.{◌≡◌, ◌≢◌, if◌then◌else◌, IfOk, IsErrOf, IsTrue};
ghost use Rattle.pl_keeper.specs.declared.records.Record.{Record as Kept};
ghost use Rattle.pl_keeper.specs.Limits.{is_within};
ghost use Rattle.pl_keeper.specs.Rows.{IsKept, ReadsTable, row_of};

use crate::limits::is_within;
use crate::parts::parts_of;
use crate::records::{
    JobEnd, KeptAgent, KeptDecision, KeptFile, KeptJob, KeptPipeline, KeptPrincipal, KeptResource,
    KeptRun, KeptStage, Meta, Record, StageEnd, Taking,
};
use pl_base::{Argument, Digest, FileKey, List, Moment, ResourceKey, Row, Text};
use pl_fields::{DecodeFault, Raw};
use pl_limits::Check;
use pl_rules::Role;
use std::alloc::Global;

/// What a row keeps.
///
/// Torn comes exactly where the row is no record's that is within the limits: its key or its body
/// isn't one of its table's, or has a byte too many, or a name, a ref, a path, a text, a number, a
/// check, a rule or an output is past its limit, or an approver, a day or a capability stands
/// twice, or capabilities don't ascend, or a run has the number 0, or a digest is that of no bytes.
/// Memory comes where there was none for the record.
pub fn decode(alloc: Global, row: &Row) -> Result<Record, DecodeFault>
    ensures ok { IfOk result (λ kept. IsKept kept × IsTrue (is_within kept) ×
        (row.now ≡ row_of kept)) }
    ensures torn { IsErrOf result DecodeFault.Torn →
        (kept : Kept) → IsKept kept → IsTrue (is_within kept) → row.now ≢ row_of kept }
{
    let record = record_of(alloc, row)?;
    let is_good = is_within(alloc, &record)?;
    kept_if(record, is_good)
}

/// The value where it is good, and Torn where it isn't.
fn kept_if<T: Drop>(value: T, is_good: bool) -> Result<T, DecodeFault>
    ensures { result ≡ (if is_good then Ok value else Err DecodeFault.Torn) }
{
    if is_good {
        Ok(value)
    } else {
        Err(DecodeFault::Torn)
    }
}

/// The record whose row it is, within the limits or not.
fn record_of(alloc: Global, row: &Row) -> Result<Record, DecodeFault>
    ensures ok { IfOk result (λ kept. IsKept kept × (row.now ≡ row_of kept)) }
    ensures torn { IsErrOf result DecodeFault.Torn →
        (kept : Kept) → IsKept kept → row.now ≢ row_of kept }
{
    match row.table {
        0 => meta_of(alloc, row),
        1 => file_of(alloc, row),
        2 => pipeline_of(alloc, row),
        3 => resource_of(alloc, row),
        4 => principal_of(alloc, row),
        5 => agent_of(alloc, row),
        6 => run_of(alloc, row),
        7 => stage_of(alloc, row),
        8 => job_of(alloc, row),
        9 => decision_of(alloc, row),
        _ => Err(DecodeFault::Torn),
    }
}

/// The service's numbers.
fn meta_of(alloc: Global, row: &Row) -> Result<Record, DecodeFault>
    ensures { ReadsTable 0 row.now result }
{
    let ((), (moment, (run, (version, change)))): ((), (Moment, (u64, (u64, u64)))) = parts_of(
        alloc, row,
    )?;
    Ok(Record::Meta(Meta {
        moment,
        run,
        version,
        change,
    }))
}

/// A file.
fn file_of(alloc: Global, row: &Row) -> Result<Record, DecodeFault>
    ensures { ReadsTable 1 row.now result }
{
    let (key, text): (FileKey, Raw) = parts_of(alloc, row)?;
    Ok(Record::File(KeptFile {
        key,
        text: text.bytes,
    }))
}

/// A pipeline.
fn pipeline_of(alloc: Global, row: &Row) -> Result<Record, DecodeFault>
    ensures { ReadsTable 2 row.now result }
{
    let (name, (repo, path)): (Text, (Text, Text)) = parts_of(alloc, row)?;
    Ok(Record::Pipeline(KeptPipeline { name, repo, path }))
}

/// What a resource's row's body holds.
type ResourceBody = (bool, (Option<List<Text>>, List<Check>));

/// A resource.
fn resource_of(alloc: Global, row: &Row) -> Result<Record, DecodeFault>
    ensures { ReadsTable 3 row.now result }
{
    let (key, body): (ResourceKey, ResourceBody) = parts_of(alloc, row)?;
    let (exclusive, (pipelines, checks)) = body;
    Ok(Record::Resource(KeptResource {
        key,
        exclusive,
        pipelines,
        checks,
    }))
}

/// A principal.
fn principal_of(alloc: Global, row: &Row) -> Result<Record, DecodeFault>
    ensures { ReadsTable 4 row.now result }
{
    let (name, (roles, digest)): (Text, (List<Role>, Digest)) = parts_of(alloc, row)?;
    Ok(Record::Principal(KeptPrincipal {
        name,
        roles,
        digest,
    }))
}

/// An agent.
fn agent_of(alloc: Global, row: &Row) -> Result<Record, DecodeFault>
    ensures { ReadsTable 5 row.now result }
{
    let (name, (pool, capabilities)): (Text, (Text, List<(Text, Text)>)) = parts_of(alloc, row)?;
    Ok(Record::Agent(KeptAgent {
        name,
        pool,
        capabilities,
    }))
}

/// What a run was compiled from, and when it was canceled.
type RunSources = (FileKey, (List<Argument>, (List<KeptFile>, Option<Moment>)));

/// A run.
fn run_of(alloc: Global, row: &Row) -> Result<Record, DecodeFault>
    ensures { ReadsTable 6 row.now result }
{
    let (run, body): (u64, (Text, (Text, (Moment, RunSources)))) = parts_of(alloc, row)?;
    let (pipeline, (requester, (moment, (root, (arguments, (files, canceled)))))) = body;
    Ok(Record::Run(KeptRun {
        run,
        pipeline,
        requester,
        moment,
        root,
        arguments,
        files,
        canceled,
    }))
}

/// A stage.
fn stage_of(alloc: Global, row: &Row) -> Result<Record, DecodeFault>
    ensures { ReadsTable 7 row.now result }
{
    let ((run, position), (started, ended)): ((u64, u32), (Option<Moment>, Option<StageEnd>)) =
        parts_of(alloc, row)?;
    Ok(Record::Stage(KeptStage {
        run,
        position,
        started,
        ended,
    }))
}

/// A job.
fn job_of(alloc: Global, row: &Row) -> Result<Record, DecodeFault>
    ensures { ReadsTable 8 row.now result }
{
    let (key, body): ((u64, (u32, u32)), (Option<Taking>, Option<JobEnd>)) = parts_of(alloc, row)?;
    let (run, (stage, position)) = key;
    let (taken, ended) = body;
    Ok(Record::Job(KeptJob {
        run,
        stage,
        position,
        taken,
        ended,
    }))
}

/// A decision.
fn decision_of(alloc: Global, row: &Row) -> Result<Record, DecodeFault>
    ensures { ReadsTable 9 row.now result }
{
    let ((run, (stage, approver)), (approve, moment)): ((u64, (u32, Text)), (bool, Moment)) =
        parts_of(alloc, row)?;
    Ok(Record::Decision(KeptDecision {
        run,
        stage,
        approver,
        approve,
        moment,
    }))
}
