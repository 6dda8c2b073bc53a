use pl_base::FileKey;
use pl_file_sets::SharedFiles;

/// The files of a bundle, and the key of its root file.
#[derive(Debug, Drop)]
pub struct Bundle {
    pub root: FileKey,
    pub files: SharedFiles,
}
