//! The order in which compiles are kept, so that those of a run's sources are found in few steps.

use pl_base::{Argument, Bytes, FileKey};
use pl_keeper::{KeptFile, KeptRun};
use pl_plan::Sources;
use std::cmp::Ordering;

/// How a compile's sources stand to those of a run: by the number of files, the root, the number of
/// arguments, and then by the first file or argument that isn't the same.
pub(crate) fn sources_order(sources: &Sources, told: &KeptRun) -> Ordering {
    let files = sources.files.len().cmp(&told.files.len());
    let arguments = sources.arguments.len().cmp(&told.arguments.len());
    files
        .then(arguments)
        .then(sources.root.cmp(&told.root))
        .then(files_order(sources.files.as_slice(), told.files.as_slice()))
        .then(arguments_order(sources.arguments.as_slice(), told.arguments.as_slice()))
}

/// How the first files that aren't the same stand to each other.
fn files_order(files: &[(FileKey, Bytes)], told: &[KeptFile]) -> Ordering {
    for at in 0..files.len() {
        let Some(other) = told.get(at) else {
            return Ordering::Greater;
        };
        let (key, text) = &files[at];
        let order = key
            .cmp(&other.key)
            .then(text.as_slice().cmp(other.text.as_slice()));
        if !order.is_eq() {
            return order;
        }
    }
    Ordering::Equal
}

/// How the first arguments that aren't the same stand to each other.
fn arguments_order(arguments: &[Argument], told: &[Argument]) -> Ordering {
    for at in 0..arguments.len() {
        let Some(other) = told.get(at) else {
            return Ordering::Greater;
        };
        let one = &arguments[at];
        let order = one.name.cmp(&other.name).then(one.text.cmp(&other.text));
        if !order.is_eq() {
            return order;
        }
    }
    Ordering::Equal
}
