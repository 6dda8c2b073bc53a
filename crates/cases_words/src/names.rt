use crate::lines::{write_line, write_whether};
use pl_base::{FileKey, Memory, Text};
use pl_names::{is_key, is_name, is_path, is_ref, is_repository};
use std::alloc::Global;

/// Writes whether a text is a name of that kind.
pub fn answer_name(out: &mut Text, question: &str, text: &str) -> Result<(), Memory> {
    match question {
        "paths of files" => write_whether(out, is_path(text)),
        "refs" => write_whether(out, is_ref(text)),
        "names" => write_whether(out, is_name(text)),
        "repositories" => write_whether(out, is_repository(text)),
        _ => write_line(out, "%%% not read: ", question),
    }
}

fn key_of(alloc: Global, text: &str) -> Result<FileKey, Memory> {
    let (repo, rest) = text.split_once(' ').unwrap_or((text, ""));
    let (git_ref, path) = rest.split_once(' ').unwrap_or((rest, ""));
    let repo = Text::from_str(alloc, repo)?;
    let git_ref = Text::from_str(alloc, git_ref)?;
    let path = Text::from_str(alloc, path)?;
    Ok(FileKey {
        repo,
        git_ref,
        path,
    })
}

/// Writes whether `REPO REF PATH` is a key of a file.
pub fn answer_key(alloc: Global, out: &mut Text, text: &str) -> Result<(), Memory> {
    let key = key_of(alloc, text)?;
    write_whether(out, is_key(&key))
}
