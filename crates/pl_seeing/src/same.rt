//! Whether a compile has the same sources as a run.

ghost use Rattle.std.specs.Prelude.{◌≡◌, ◌↔◌, map, IsTrue};
ghost use Rattle.pl_seeing.specs.Seeing.{pair_of, sources_of};

use pl_base::{Argument, Bytes, FileKey};
use pl_keeper::{KeptFile, KeptRun};
use pl_plan::Sources;

/// Whether it is the run's root file, the run's arguments, and its files with their texts, in this
/// order.
pub(crate) fn are_same(told: &KeptRun, sources: &Sources) -> bool
    ensures { IsTrue result ↔ (sources.now ≡ sources_of told.now) }
{
    told.root == sources.root
        && are_arguments(told.arguments.as_slice(), sources.arguments.as_slice())
        && are_files(told.files.as_slice(), sources.files.as_slice())
}

/// Whether two lists of arguments are one.
fn are_arguments(told: &[Argument], arguments: &[Argument]) -> bool
    ensures { IsTrue result ↔ (arguments.now ≡ told.now) }
{
    if told.len() != arguments.len() {
        return false;
    }
    for at in 0..told.len() {
        if !is_argument(&told[at], &arguments[at]) {
            return false;
        }
    }
    true
}

/// Whether an argument has the same name and the same text.
fn is_argument(told: &Argument, argument: &Argument) -> bool
    ensures { IsTrue result ↔ (argument.now ≡ told.now) }
{
    told.name == argument.name && told.text == argument.text
}

/// Whether two lists of files are one.
fn are_files(told: &[KeptFile], files: &[(FileKey, Bytes)]) -> bool
    ensures { IsTrue result ↔ (files.now ≡ map pair_of told.now) }
{
    if told.len() != files.len() {
        return false;
    }
    for at in 0..told.len() {
        if !is_file(&told[at], &files[at]) {
            return false;
        }
    }
    true
}

/// Whether a file has the same key and the same text.
fn is_file(told: &KeptFile, file: &(FileKey, Bytes)) -> bool
    ensures { IsTrue result ↔ (file.now ≡ pair_of told.now) }
{
    told.key == file.0 && told.text == file.1
}
