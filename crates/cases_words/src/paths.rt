use crate::lines::write_line;
use pl_base::{Memory, Text};
use pl_paths::{cut_path, from_file, from_root};
use std::alloc::Global;

/// Writes the path that a text names, and behind an `@` between spaces the alias, if one is there.
pub fn answer_cut(alloc: Global, out: &mut Text, text: &str) -> Result<(), Memory> {
    let cut = cut_path(alloc, &Text::from_str(alloc, text)?)?;
    out.push_str(cut.path.as_str())?;
    match &cut.alias {
        Some(alias) => write_line(out, " @ ", alias.as_str()),
        None => out.push_str("\n"),
    }
}

fn write_found(out: &mut Text, found: Option<&Text>) -> Result<(), Memory> {
    match found {
        Some(path) => write_line(out, path.as_str(), ""),
        None => write_line(out, "none", ""),
    }
}

/// Writes where a path leads that a file holds: the file's path and that path, parted by a space.
pub fn answer_from_file(alloc: Global, out: &mut Text, text: &str) -> Result<(), Memory> {
    let (file, path) = text.split_once(' ').unwrap_or((text, ""));
    let file = Text::from_str(alloc, file)?;
    let path = Text::from_str(alloc, path)?;
    let found = from_file(alloc, &file, &path)?;
    write_found(out, found.as_ref())
}

/// Writes where a path leads from the root.
pub fn answer_from_root(alloc: Global, out: &mut Text, text: &str) -> Result<(), Memory> {
    let path = Text::from_str(alloc, text)?;
    let found = from_root(alloc, &path)?;
    write_found(out, found.as_ref())
}
