//! What a request wants to be compiled.

ghost use Rattle.std.specs.Prelude.{◌≡◌, IfOk};
ghost use Rattle.pl_snapshots.specs.Gathering.{IsGathered};
ghost use Rattle.pl_snapshots.specs.Snapshots as spec;

use crate::gathering::Gathered;
use crate::snapshot::Snapshot;
use pl_base::{Bytes, ExactCopy, FileKey, List, Memory, Text};
use pl_file_sets::SharedFiles;
use pl_journal::Journal;
use pl_requests::{Order, PipelineSetting, Request};
use std::alloc::Global;

/// The key of a queued text.
fn text_file(alloc: Global) -> Result<FileKey, Memory>
    ensures { IfOk result (λ key. key ≡ spec.text_file) }
{
    let repo = Text::from_str(alloc, "text")?;
    let git_ref = Text::from_str(alloc, "refs/heads/text")?;
    let path = Text::from_str(alloc, "/text.yml")?;
    Ok(FileKey {
        repo,
        git_ref,
        path,
    })
}

/// A queued text is alone in its set of files.
fn of_text(alloc: Global, journal: &Journal, text: &Bytes) -> Result<Snapshot, Memory>
    ensures { IfOk result (λ snapshot. snapshot ≡ spec.of_text journal.now text.now) }
{
    let mut files = SharedFiles::new(alloc);
    let text = Bytes::from_slice(alloc, text.as_slice())?;
    files.put_text(alloc, text_file(alloc)?, text)?;
    let root = text_file(alloc)?;
    Ok(Snapshot {
        files,
        version: journal.version(),
        root,
        arguments: List::new(alloc),
    })
}

/// The pipeline's file under the order's ref.
fn root_of(alloc: Global, told: &PipelineSetting, order: &Order) -> Result<FileKey, Memory>
    ensures { IfOk result (λ key. key ≡ spec.root_of told.now order.now) }
{
    let repo = told.repo.copy(alloc)?;
    let git_ref = order.git_ref.copy(alloc)?;
    let path = told.path.copy(alloc)?;
    Ok(FileKey {
        repo,
        git_ref,
        path,
    })
}

/// All files, which what was gathered shares.
fn files_of(alloc: Global, journal: &Journal, gathered: &Gathered) -> Result<SharedFiles, Memory>
    requires { IsGathered journal.now.facts gathered.now }
    ensures { IfOk result (spec.AreFiles journal.now.facts) }
{
    let mut now = gathered.copy(alloc)?;
    now.catch_up(alloc, journal)?;
    Ok(now.files)
}

/// All files, and the pipeline's one as the root.
fn of_order(
    alloc: Global,
    journal: &Journal,
    gathered: &Gathered,
    told: &PipelineSetting,
    order: &Order,
) -> Result<Snapshot, Memory>
    requires { IsGathered journal.now.facts gathered.now }
    ensures { IfOk result (spec.IsOfOrder journal.now told.now order.now) }
{
    let files = files_of(alloc, journal, gathered)?;
    let root = root_of(alloc, told, order)?;
    let arguments = order.arguments.copy(alloc)?;
    Ok(Snapshot {
        files,
        version: journal.version(),
        root,
        arguments,
    })
}

/// What a request wants to be compiled: `POST /texts` its text, alone, as the file `/text.yml` of
/// the repository `text` and the ref `refs/heads/text`, without arguments; `POST /runs` the
/// pipeline's file under the order's ref, among all files as they stand, with the order's
/// arguments, or None where the pipeline isn't there; any other request None. What was gathered is
/// shared, and only the facts behind that are looked at. Memory where memory is wanting.
pub fn wanted(
    alloc: Global,
    journal: &Journal,
    gathered: &Gathered,
    request: &Request,
) -> Result<Option<Snapshot>, Memory>
    requires { IsGathered journal.now.facts gathered.now }
    ensures { IfOk result (spec.Wants journal.now request.now) }
{
    match request {
        Request::QueueText(text) => Ok(Some(of_text(alloc, journal, text)?)),
        Request::Queue(order) => match journal.pipeline(&order.pipeline) {
            Some(told) => Ok(Some(of_order(alloc, journal, gathered, told, order)?)),
            None => Ok(None),
        },
        _ => Ok(None),
    }
}
