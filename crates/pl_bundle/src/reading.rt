ghost use Rattle.std.specs.Prelude.{◌≡◌, ◌∷◌, ◌++◌, ◌<◌, ◌≤◌, [], length, take, drop, None, Some};
ghost use Rattle.std.specs.Prelude.{IfOk};
ghost use Rattle.std.specs.Prelude.{MatchOption, if◌then◌else◌};
ghost use Rattle.pl_bundle.specs.Bundles.{bundle_of, files_in, lines_of, placed};
ghost use Rattle.pl_bundle.specs.Bundles.{of_files, readable_key};
ghost use Rattle.pl_bundle.specs.Taking.{IsOpened, Takes, file_in};

use crate::bundle::Bundle;
use crate::head::{Head, head_of, key_at};
use crate::lines::first_line;
use pl_base::{Bytes, FileKey, Memory};
use pl_file_sets::SharedFiles;
use std::alloc::Global;

/// How many files a bundle may have. More are want of memory.
const MOST_FILES: usize = 10_000;

/// How many bytes stand before the first line that names a file.
fn body_len(bytes: &[u8]) -> usize
    ensures within { result ≤ length bytes.now }
    ensures front { (files_in (lines_of bytes.now)).0 ≡ take result bytes.now }
    ensures files { (files_in (lines_of bytes.now)).1 ≡
        (files_in (lines_of (drop result bytes.now))).1 }
    ensures rest { (files_in (lines_of (drop result bytes.now))).0 ≡ [] }
{
    let mut len = 0;
    while len < bytes.len() {
        let (line, _rest) = first_line(&bytes[len..]);
        if head_of(line).is_some() {
            break;
        }
        len += line.len();
    }
    len
}

/// The file that bytes begin with: its name, its text, and what stands behind it.
#[derive(Clone, Copy)]
struct Opened<'a> {
    head: Head<'a>,
    body: &'a [u8],
    rest: &'a [u8],
}

/// The file that bytes begin with, or None where the first line names none.
fn open_file(bytes: &[u8]) -> Option<Opened<'_>>
    requires { 0 < length bytes.now }
    ensures { MatchOption result (0 < length (files_in (lines_of bytes.now)).0)
        (λ opened. IsOpened bytes.now opened) }
{
    let (line, behind) = first_line(bytes);
    match head_of(line) {
        None => None,
        Some(head) => {
            let (body, rest) = behind.split_at(body_len(behind));
            Some(Opened { head, body, rest })
        }
    }
}

/// Puts the file that bytes begin with, and gives what stands behind it. None where the key breaks
/// the rules of keys, or has a file.
fn take_file<'a>(
    alloc: Global,
    opened: &Opened<'a>,
    texts: &mut SharedFiles,
) -> Result<Option<&'a [u8]>, Memory>
    ensures { IfOk result (λ rest. Takes (file_in opened.now) opened.now.rest.now texts.old
        texts.new rest) }
{
    match key_at(alloc, &opened.head)? {
        None => Ok(None),
        Some(key) => place(alloc, key, opened, texts),
    }
}

/// Puts a file whose key keeps the rules, and gives what stands behind it, or None where its key
/// has a file.
fn place<'a>(
    alloc: Global,
    key: FileKey,
    opened: &Opened<'a>,
    texts: &mut SharedFiles,
) -> Result<Option<&'a [u8]>, Memory>
    requires readable { Some key ≡ readable_key (file_in opened.now).0 }
    ensures { IfOk result (λ rest. Takes (file_in opened.now) opened.now.rest.now texts.old
        texts.new rest) }
{
    if texts.get(&key).is_some() {
        return Ok(None);
    }
    texts.put_text(alloc, key, Bytes::from_slice(alloc, opened.body)?)?;
    Ok(Some(opened.rest))
}

/// Puts all files, and says whether each has a key of its own that keeps the rules. Memory where
/// there are more than `MOST_FILES`.
fn take_files(alloc: Global, bytes: &[u8], texts: &mut SharedFiles) -> Result<bool, Memory>
    requires { (files_in (lines_of bytes.now)).0 ≡ [] }
    ensures { IfOk result (λ are_good. placed texts.old (files_in (lines_of bytes.now)).1 ≡
        if are_good then Some texts.new else None) }
{
    let mut rest = bytes;
    let mut left = MOST_FILES;
    while !rest.is_empty() {
        let Some(opened) = open_file(rest) else {
            return Ok(false);
        };
        left = left.checked_sub(1).ok_or(Memory)?;
        match take_file(alloc, &opened, texts)? {
            Some(behind) => rest = behind,
            None => return Ok(false),
        }
    }
    Ok(true)
}

/// The bundle of bytes that begin with a file.
fn of_files(alloc: Global, bytes: &[u8], opened: &Opened<'_>) -> Result<Option<Bundle>, Memory>
    requires opened { IsOpened bytes.now opened.now }
    ensures { IfOk result (λ bundle. bundle ≡ of_files (files_in (lines_of bytes.now)).1) }
{
    let Some(root) = key_at(alloc, &opened.head)? else {
        return Ok(None);
    };
    let mut files = SharedFiles::new(alloc);
    if take_files(alloc, bytes, &mut files)? {
        Ok(Some(Bundle { root, files }))
    } else {
        Ok(None)
    }
}

/// The bundle that bytes hold, read in one pass: files in one text, each behind a line `%%% REPO
/// REF PATH` whose parts are parted by single spaces, the root file first. A file's text is the
/// lines up to the next such line, byte for byte. None where the bytes are no bundle: something
/// stands before the first such line, there is none, a key isn't UTF-8 or breaks the rules of
/// repositories, refs and paths, or two files have one key. Memory where memory is wanting, and
/// where more than 10,000 files stand before the first that makes it no bundle.
pub fn bundle_of(alloc: Global, bytes: &[u8]) -> Result<Option<Bundle>, Memory>
    ensures { IfOk result (λ bundle. bundle ≡ bundle_of bytes.now) }
{
    if bytes.is_empty() {
        return Ok(None);
    }
    match open_file(bytes) {
        Some(opened) => of_files(alloc, bytes, &opened),
        None => Ok(None),
    }
}
