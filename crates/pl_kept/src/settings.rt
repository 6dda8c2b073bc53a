//! Rows of files, pipelines, resources, principals and agents.

ghost use Rattle.std.specs.Prelude.{◌≡◌, IfOk, IfSome};
ghost use Rattle.std.specs.Option.{option_map};
ghost use Rattle.pl_keeper.specs.Rows.{row_of, IsKept};
ghost use Rattle.pl_kept.specs.Kept.{agent_kept, file_kept, pipeline_kept, principal_kept};
ghost use Rattle.pl_kept.specs.Kept.{resource_kept};

use crate::written::written;
use pl_base::{FileKey, Memory, ResourceKey, Row, Text};
use pl_fields::RawSlice;
use pl_journal::Journal;
use std::alloc::Global;

/// The row of a file, or None where it isn't there.
pub fn file_row(alloc: Global, journal: &Journal, key: &FileKey) -> Result<Option<Row>, Memory>
    ensures row { IfOk result
        (λ row. row ≡ option_map row_of (file_kept key.now journal.now.facts)) }
    ensures fits { IfOk result (λ _. IfSome (file_kept key.now journal.now.facts) IsKept) }
{
    match journal.file(key) {
        Some(text) => {
            let bytes = text.as_slice();
            written(alloc, 1, key, &RawSlice { bytes })
        }
        None => Ok(None),
    }
}

/// The row of a pipeline, or None where none was set.
pub fn pipeline_row(alloc: Global, journal: &Journal, name: &Text) -> Result<Option<Row>, Memory>
    ensures row { IfOk result
        (λ row. row ≡ option_map row_of (pipeline_kept name.now journal.now.facts)) }
    ensures fits { IfOk result (λ _. IfSome (pipeline_kept name.now journal.now.facts) IsKept) }
{
    match journal.pipeline(name) {
        Some(setting) => written(alloc, 2, name, &(&setting.repo, &setting.path)),
        None => Ok(None),
    }
}

/// The row of a resource, or None where no fact set it.
pub fn resource_row(
    alloc: Global,
    journal: &Journal,
    key: &ResourceKey,
) -> Result<Option<Row>, Memory>
    ensures row { IfOk result
        (λ row. row ≡ option_map row_of (resource_kept key.now journal.now.facts)) }
    ensures fits { IfOk result (λ _. IfSome (resource_kept key.now journal.now.facts) IsKept) }
{
    match journal.resource_set(key) {
        Some(setting) => {
            let guards = (&setting.pipelines, &setting.checks);
            written(alloc, 3, key, &(setting.exclusive, guards))
        }
        None => Ok(None),
    }
}

/// The row of a principal, or None where none was set.
pub fn principal_row(alloc: Global, journal: &Journal, name: &Text) -> Result<Option<Row>, Memory>
    ensures row { IfOk result
        (λ row. row ≡ option_map row_of (principal_kept name.now journal.now.facts)) }
    ensures fits { IfOk result (λ _. IfSome (principal_kept name.now journal.now.facts) IsKept) }
{
    match journal.principal_set(name) {
        Some(setting) => written(alloc, 4, name, &(&setting.roles, setting.digest)),
        None => Ok(None),
    }
}

/// The row of an agent, or None where no fact set it.
pub fn agent_row(alloc: Global, journal: &Journal, name: &Text) -> Result<Option<Row>, Memory>
    ensures row { IfOk result
        (λ row. row ≡ option_map row_of (agent_kept name.now journal.now.facts)) }
    ensures fits { IfOk result (λ _. IfSome (agent_kept name.now journal.now.facts) IsKept) }
{
    match journal.agent_set(name) {
        Some(setting) => written(alloc, 5, name, &(&setting.pool, &setting.capabilities)),
        None => Ok(None),
    }
}
