//! The limits of what rows keep.

ghost use Rattle.std.specs.Prelude.{◌≡◌, not, true, IfOk};
ghost use Rattle.std.specs.List.{list_all};
ghost use Rattle.std.specs.Option.{option_map_or};
ghost use Rattle.pl_limits.specs.Limits.{is_ending};
ghost use Rattle.pl_names.specs.Names.{is_name};
ghost use Rattle.pl_keeper.specs.Limits.{is_end, is_file, is_skipped, is_within};
ghost use Rattle.pl_keeper.specs.declared.records.Record.TheVariants.{Resource, Run};

use crate::records::{JobEnd, KeptFile, KeptResource, KeptRun, Record, StageEnd, Taking};
use pl_base::{Argument, LAST_MOMENT, List, Memory, Outcome, Text};
use pl_digests::is_of_nothing;
use pl_limits::{
    are_capabilities, are_checks, are_outputs, is_counted, is_ending, is_file_text, is_run,
    may_be_granted,
};
use pl_names::{is_key, is_name, is_path, is_repository};
use pl_rules::Rule;
use std::alloc::Global;

/// Whether a record is within the limits. Memory where memory is wanting.
pub(crate) fn is_within(alloc: Global, kept: &Record) -> Result<bool, Memory>
    ensures { IfOk result (λ is. is ≡ is_within kept.now) }
{
    match kept {
        Record::Meta(row) => Ok(
            row.moment <= LAST_MOMENT
                && is_counted(row.run)
                && is_counted(row.version)
                && is_counted(row.change)
                && 1 <= row.change,
        ),
        Record::File(row) => Ok(is_file(row)),
        Record::Pipeline(row) => {
            Ok(named(&row.name) && is_repository(row.repo.as_str()) && is_path(row.path.as_str()))
        }
        Record::Resource(row) => is_resource(alloc, row),
        Record::Principal(row) => Ok(named(&row.name) && !is_of_nothing(&row.digest)),
        Record::Agent(row) => {
            Ok(named(&row.name) && named(&row.pool) && are_capabilities(&row.capabilities))
        }
        Record::Run(row) => Ok(is_run_row(row)),
        Record::Stage(row) => Ok(is_run(row.run) && may_have_come_to(&row.ended)),
        Record::Job(row) => {
            Ok(is_run(row.run) && may_take(&row.taken) && may_have_ended(&row.ended))
        }
        Record::Decision(row) => Ok(is_run(row.run) && named(&row.approver)),
    }
}

/// Whether a resource is within the limits.
fn is_resource(alloc: Global, row: &KeptResource) -> Result<bool, Memory>
    ensures { IfOk result (λ is. is ≡ is_within (Resource row.now)) }
{
    let are_good = are_checks(alloc, &row.checks)?;
    Ok(named(&row.key.name) && may_be_granted(&row.pipelines) && are_good)
}

/// Whether a text is a name.
fn named(text: &Text) -> bool
    ensures { result ≡ is_name text.now }
{
    is_name(text.as_str())
}

/// Whether a file's key and its text are within the limits.
fn is_file(file: &KeptFile) -> bool
    ensures { result ≡ is_file file.now }
{
    is_key(&file.key) && is_file_text(&file.text)
}

/// Whether a run is within the limits.
fn is_run_row(run: &KeptRun) -> bool
    ensures { result ≡ is_within (Run run.now) }
{
    is_run(run.run)
        && named(&run.pipeline)
        && named(&run.requester)
        && is_key(&run.root)
        && have_argument_names(&run.arguments)
        && are_files(&run.files)
}

/// Whether arguments have names.
fn have_argument_names(arguments: &List<Argument>) -> bool
    ensures { result ≡ list_all (λ told. is_name told.name) arguments.now }
{
    arguments.as_slice().iter().all(|told| named(&told.name))
}

/// Whether files are within the limits.
fn are_files(files: &List<KeptFile>) -> bool
    ensures { result ≡ list_all is_file files.now }
{
    files.as_slice().iter().all(|file| is_file(file))
}

/// Whether a rule that ended something, if one did, is within the limits.
fn may_end(rule: &Option<Rule>) -> bool
    ensures { result ≡ option_map_or is_ending rule.now true }
{
    match rule {
        Some(rule) => is_ending(rule),
        None => true,
    }
}

/// Whether a job's end is within the limits.
fn is_end(end: &JobEnd) -> bool
    ensures { result ≡ is_end end.now }
{
    may_end(&end.rule) && may_report(&end.reported) && are_outputs(&end.outputs)
}

/// Whether a report, if there was one, said another result than Skipped.
fn may_report(reported: &Option<Outcome>) -> bool
    ensures { result ≡ option_map_or (λ outcome. not (is_skipped outcome)) reported.now true }
{
    match reported {
        Some(Outcome::Skipped) => false,
        _ => true,
    }
}

/// Whether a taking, if there was one, is within the limits.
fn may_take(taken: &Option<Taking>) -> bool
    ensures { result ≡ option_map_or (λ told. is_name told.agent) taken.now true }
{
    match taken {
        None => true,
        Some(taking) => named(&taking.agent),
    }
}

/// Whether a job's end, if it ended, is within the limits.
fn may_have_ended(ended: &Option<JobEnd>) -> bool
    ensures { result ≡ option_map_or is_end ended.now true }
{
    match ended {
        None => true,
        Some(end) => is_end(end),
    }
}

/// Whether a stage's end, if it ended, is within the limits.
fn may_have_come_to(ended: &Option<StageEnd>) -> bool
    ensures { result ≡ option_map_or (λ told. option_map_or is_ending told.rule true)
        ended.now true }
{
    match ended {
        None => true,
        Some(end) => may_end(&end.rule),
    }
}
