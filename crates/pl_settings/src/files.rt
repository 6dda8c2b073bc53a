//! Files.

ghost use Rattle.std.specs.Prelude.{◌≡◌, IfOk};
ghost use Rattle.pl_settings.specs.Files as spec;

use pl_answers::{Answer, numbered};
use pl_base::{ExactCopy, FileKey, Memory, Shared};
use pl_facts::Event;
use pl_journal::Journal;
use pl_requests::{Body, FileText, Reply, Rule};
use std::alloc::Global;

/// The version of the files once one more was put or removed, or 2^64 - 1 where that is more.
fn next_version(journal: &Journal) -> u64
    ensures { result ≡ spec.next_version journal.now }
{
    journal.version().saturating_add(1)
}

/// 200 with the version of the files once one more was put or removed.
fn versioned(alloc: Global, journal: &Journal) -> Result<Reply, Memory>
    ensures { IfOk result (λ reply. reply ≡ spec.versioned journal.now) }
{
    numbered(alloc, 200, "version", next_version(journal))
}

/// What `PUT /files/{repo}/{ref}/{path}` is answered: 200 with the version of the files after it,
/// and the file has this text from then on. A file that has the text already is put once more.
/// Memory where memory is wanting.
pub fn put_file(alloc: Global, journal: &Journal, file: &Shared<FileText>) -> Result<Answer, Memory>
    ensures { IfOk result (λ answer. answer ≡ spec.put_file journal.now file.now) }
{
    let reply = versioned(alloc, journal)?;
    let event = Event::FilePut(file.copy(alloc)?);
    Ok(Answer::with_fact(reply, event))
}

/// What `DELETE /files/{repo}/{ref}/{path}` is answered: 200 with the version of the files after
/// it, and the file isn't there from then on. 404 `file.unknown` where it isn't there. Memory where
/// memory is wanting.
pub fn remove_file(
    alloc: Global,
    journal: &Journal,
    key: &Shared<FileKey>,
) -> Result<Answer, Memory>
    ensures { IfOk result (λ answer. answer ≡ spec.remove_file journal.now key.now) }
{
    if journal.file(key).is_none() {
        return Answer::refusal(alloc, 404, &Rule::FileUnknown);
    }
    let reply = versioned(alloc, journal)?;
    let event = Event::FileRemoved(key.copy(alloc)?);
    Ok(Answer::with_fact(reply, event))
}

/// What `GET /files/{repo}/{ref}/{path}` is answered: 200 with the file's bytes, which the answer
/// shares with the journal. 404 `file.unknown` where it isn't there. Nothing happens by it. Memory
/// where memory is wanting.
pub fn get_file(alloc: Global, journal: &Journal, key: &FileKey) -> Result<Answer, Memory>
    ensures { IfOk result (λ answer. answer ≡ spec.get_file journal.now.facts key.now) }
{
    match journal.file_put(key) {
        Some(file) => {
            let body = Body::Raw(file.copy(alloc)?);
            Ok(Answer::without_fact(Reply { status: 200, body }))
        }
        None => Answer::refusal(alloc, 404, &Rule::FileUnknown),
    }
}
