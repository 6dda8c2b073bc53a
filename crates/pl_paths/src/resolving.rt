ghost use Rattle.std.specs.Prelude.{◌≡◌, ◌++◌, ◌∷◌, [], map, IfOk};
ghost use Rattle.std.specs.Option.{option_copied};
ghost use Rattle.pl_paths.specs.Paths.{merged, inner, segments_of, path_of, parent, walked};
ghost use Rattle.pl_paths.specs.Paths.{walked_on};
ghost use Rattle.pl_paths.specs.Paths.{from_root, from_file, slash, led, is_absolute, parts};

use pl_base::{List, Memory, Text};
use std::alloc::{AllocError, Global};

/// A text behind a folder.
fn behind(alloc: Global, folder: &str, path: &str) -> Result<Text, Memory>
    ensures { IfOk result (λ text. text ≡ folder.now ++ slash ∷ path.now) }
{
    let mut text = Text::from_str(alloc, folder)?;
    text.push_str("/")?;
    text.push_str(path)?;
    Ok(text)
}

/// Whether a path begins at the root.
fn is_absolute(path: &str) -> bool
    ensures { result ≡ is_absolute path.now }
{
    match path.strip_prefix('/') {
        Some(_rest) => true,
        None => false,
    }
}

/// A path as it stands in a file: behind the file's folder, unless it begins with `/`.
fn merge(alloc: Global, file: &str, path: &str) -> Result<Text, Memory>
    ensures { IfOk result (λ text. text ≡ merged file.now path.now) }
{
    if is_absolute(path) {
        return Text::from_str(alloc, path);
    }
    match file.rsplit_once('/') {
        None => Text::from_str(alloc, path),
        Some((folder, _name)) => behind(alloc, folder, path),
    }
}

/// A path without the `/` in front of it.
fn inner(path: &str) -> &str
    ensures { result.now ≡ inner path.now }
{
    match path.strip_prefix('/') {
        Some(rest) => rest,
        None => path,
    }
}

/// What stands between the slashes of a text.
fn parts(alloc: Global, path: &str) -> Result<Vec<&str>, AllocError>
    ensures { IfOk result (λ all. map (λ part. part.now) all.items ≡ parts path.now) }
{
    path.split('/').collect(alloc)
}

/// The segments of a path.
fn segments_of(alloc: Global, path: &str) -> Result<Vec<&str>, Memory>
    ensures { IfOk result (λ all. map (λ segment. segment.now) all.items ≡ segments_of path.now) }
{
    let segments = parts(alloc, inner(path))?;
    Ok(segments)
}

/// All segments but the last, or None where there is none.
#[tactic(auto, using(crate::proofs::Cuts::parent_is))]
fn parent(segments: List<Text>) -> Option<List<Text>>
    ensures { result ≡ parent segments }
{
    let mut all = segments;
    match all.pop() {
        Some(_last) => Some(all),
        None => None,
    }
}

/// A segment behind those before it: None where it leads out of the root.
fn walk(alloc: Global, before: List<Text>, segment: &str) -> Result<Option<List<Text>>, Memory>
    ensures { IfOk result (λ next. next ≡ walked before segment.now) }
{
    let mut all = before;
    match segment {
        "." => Ok(Some(all)),
        ".." => Ok(parent(all)),
        name => {
            all.push(Text::from_str(alloc, name)?)?;
            Ok(Some(all))
        }
    }
}

/// Segments behind the root.
fn walk_on(alloc: Global, segments: &[&str]) -> Result<Option<List<Text>>, Memory>
    ensures { IfOk result
        (λ all. all ≡ walked_on [] (map (λ segment. segment.now) segments.now)) }
{
    let mut all = List::new(alloc);
    for segment in segments {
        let Some(next) = walk(alloc, all, segment)? else {
            return Ok(None);
        };
        all = next;
    }
    Ok(Some(all))
}

/// Segments, each behind a `/`.
fn led(alloc: Global, segments: &List<Text>) -> Result<Text, Memory>
    ensures { IfOk result (λ path. path ≡ led segments.now) }
{
    let mut path = Text::new(alloc);
    for segment in segments.as_slice() {
        path.push_str("/")?;
        path.push_str(segment.as_str())?;
    }
    Ok(path)
}

/// The path of segments.
fn path_of(alloc: Global, segments: &List<Text>) -> Result<Text, Memory>
    ensures { IfOk result (λ path. path ≡ path_of segments.now) }
{
    if segments.is_empty() {
        return Text::from_str(alloc, "/");
    }
    led(alloc, segments)
}

/// Where a path leads from a repository's root: `.` and `..` are resolved, and a path begins with
/// `/`. None where it leads out of the root. Memory where memory is wanting.
pub fn from_root(alloc: Global, path: &Text) -> Result<Option<Text>, Memory>
    ensures { IfOk result (λ found. found ≡ from_root path.now) }
{
    let segments = segments_of(alloc, path.as_str())?;
    match walk_on(alloc, &segments)? {
        Some(all) => Ok(Some(path_of(alloc, &all)?)),
        None => Ok(None),
    }
}

/// Where a path leads that the file of that path holds: from the file's folder, unless the path
/// begins with `/`. None where it leads out of the root. Memory where memory is wanting.
pub fn from_file(alloc: Global, file: &Text, path: &Text) -> Result<Option<Text>, Memory>
    ensures { IfOk result (λ found. found ≡ from_file file.now path.now) }
{
    let whole = merge(alloc, file.as_str(), path.as_str())?;
    from_root(alloc, &whole)
}
