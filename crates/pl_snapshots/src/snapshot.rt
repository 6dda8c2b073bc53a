use pl_base::{Argument, FileKey, List};
use pl_file_sets::SharedFiles;

/// What is to be compiled: files, the version of the files when they were gathered, the root file's
/// key, and texts for the parameters. While the version stays, so do the files.
#[derive(Drop)]
pub struct Snapshot {
    pub files: SharedFiles,
    pub version: u64,
    pub root: FileKey,
    pub arguments: List<Argument>,
}
