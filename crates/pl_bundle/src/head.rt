ghost use Rattle.std.specs.Prelude.{◌≡◌, ◌∷◌, None, Some, IfOk, if◌then◌else◌};
ghost use Rattle.std.specs.List.{slice_split};
ghost use Rattle.std.specs.Option.{option_map};
ghost use Rattle.std.specs.Str.{is_utf8};
ghost use Rattle.pl_bundle.specs.Bundles.{are_texts, is_space, key_by, key_of, readable_key, three};
ghost use Rattle.pl_bundle.specs.Heads.{key_in};

use crate::lines::{content, cut};
use pl_base::{FileKey, Memory, Text};
use pl_names::is_key;
use std::alloc::Global;

/// The parts of a line that names a file.
#[derive(Clone, Copy)]
pub(crate) struct Head<'a> {
    repo: &'a [u8],
    git_ref: &'a [u8],
    path: &'a [u8],
}

/// Three parts between spaces, or None where there are fewer or more.
fn parts_of(parts: &[u8]) -> Option<Head<'_>>
    ensures { three (slice_split is_space parts.now) ≡ option_map key_in result }
{
    match cut(b' ', parts) {
        None => None,
        Some((repo, parts)) => two_behind(repo, parts),
    }
}

/// A part with two more between spaces, or None where there are fewer or more.
fn two_behind<'a>(repo: &'a [u8], parts: &'a [u8]) -> Option<Head<'a>>
    ensures { three (repo.now ∷ slice_split is_space parts.now) ≡ option_map key_in result }
{
    match cut(b' ', parts) {
        None => None,
        Some((git_ref, parts)) => one_behind(repo, git_ref, parts),
    }
}

/// Two parts with one more, or None where there are more.
fn one_behind<'a>(repo: &'a [u8], git_ref: &'a [u8], path: &'a [u8]) -> Option<Head<'a>>
    ensures { three (repo.now ∷ git_ref.now ∷ slice_split is_space path.now) ≡
        option_map key_in result }
{
    match cut(b' ', path) {
        Some(_more) => None,
        None => Some(Head {
            repo,
            git_ref,
            path,
        }),
    }
}

/// The parts of a line that names a file, or None where it isn't of that form. Most lines begin
/// otherwise, and one look at their first byte tells them.
pub(crate) fn head_of(line: &[u8]) -> Option<Head<'_>>
    ensures { key_of line.now ≡ option_map key_in result }
{
    if line.first() == Some(&b'%') {
        parted(line)
    } else {
        None
    }
}

/// The parts of a line that names a file, or None where it isn't of that form, by its first space.
fn parted(line: &[u8]) -> Option<Head<'_>>
    ensures { key_of line.now ≡ option_map key_in result }
{
    match cut(b' ', content(line)) {
        None => None,
        Some((mark, parts)) => marked(mark, parts),
    }
}

/// The parts behind the mark of a line that names a file.
fn marked<'a>(mark: &[u8], parts: &'a [u8]) -> Option<Head<'a>>
    ensures { key_by (mark.now ∷ slice_split is_space parts.now) ≡ option_map key_in result }
{
    if mark == b"%%%".as_slice() {
        parts_of(parts)
    } else {
        None
    }
}

/// The text of bytes, where they are one.
fn text_of(alloc: Global, bytes: &[u8]) -> Result<Option<Text>, Memory>
    ensures { IfOk result (λ text. text ≡ if is_utf8 bytes.now then Some bytes.now else None) }
{
    match str::from_utf8(bytes) {
        Ok(text) => Ok(Some(Text::from_str(alloc, text)?)),
        Err(_) => Ok(None),
    }
}

/// The key that a line names, where its parts are texts.
fn texts_of(alloc: Global, head: &Head<'_>) -> Result<Option<FileKey>, Memory>
    ensures { IfOk result
        (λ key. key ≡ if are_texts (key_in head.now) then Some (key_in head.now) else None) }
{
    let Some(repo) = text_of(alloc, head.repo)? else {
        return Ok(None);
    };
    let Some(git_ref) = text_of(alloc, head.git_ref)? else {
        return Ok(None);
    };
    let Some(path) = text_of(alloc, head.path)? else {
        return Ok(None);
    };
    Ok(Some(FileKey {
        repo,
        git_ref,
        path,
    }))
}

/// The key that a line names, or None where it breaks the rules of keys.
pub(crate) fn key_at(alloc: Global, head: &Head<'_>) -> Result<Option<FileKey>, Memory>
    ensures { IfOk result (λ key. key ≡ readable_key (key_in head.now)) }
{
    let Some(key) = texts_of(alloc, head)? else {
        return Ok(None);
    };
    if is_key(&key) {
        Ok(Some(key))
    } else {
        Ok(None)
    }
}
