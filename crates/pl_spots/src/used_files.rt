//! The files that a run was compiled from, as they are written in its row.

ghost use Rattle.pl_fields.specs.Fields.{list, IsListOf};
ghost use Rattle.pl_keeper.specs.Parts.{kept_file, IsKeptFile, IsShortKeptFile};
ghost use Rattle.pl_kept.specs.Told.{used_file};

use pl_base::{Bytes, FileKey, List, Memory};
use pl_fields::{RawSlice, Written};
use pl_short::Short;

/// A file and its text.
#[derive(Clone, Copy)]
struct UsedFile<'f> {
    file: &'f (FileKey, Bytes),
}

impl Written for UsedFile<'_> {
    ghost spelled = { λ used. kept_file (used_file used.file.now) };

    ghost short = { λ used. IsShortKeptFile (used_file used.file.now) };

    ghost fits = { λ used. IsKeptFile (used_file used.file.now) };

    fn size(&self) -> usize {
        let bytes = self.file.1.as_slice();
        (&self.file.0, RawSlice { bytes }).size()
    }

    fn put(&self, out: &mut Vec<u8>) -> Result<(), Memory> {
        let bytes = self.file.1.as_slice();
        (&self.file.0, RawSlice { bytes }).put(out)
    }
}

impl Short for UsedFile<'_> {
    fn is_short(&self) -> bool {
        let bytes = self.file.1.as_slice();
        (&self.file.0, RawSlice { bytes }).is_short()
    }
}

/// The files and their texts, in order.
#[derive(Clone, Copy)]
pub(crate) struct UsedFiles<'f> {
    pub(crate) files: &'f List<(FileKey, Bytes)>,
}

impl Written for UsedFiles<'_> {
    ghost spelled = { λ used. list (λ pair. kept_file (used_file pair)) used.files.now };

    ghost short = { λ used.
        IsListOf (λ pair. IsShortKeptFile (used_file pair)) used.files.now };

    ghost fits = { λ used. IsListOf (λ pair. IsKeptFile (used_file pair)) used.files.now };

    fn size(&self) -> usize {
        let mut size: usize = 4;
        for file in self.files.as_slice() {
            size = size.saturating_add(UsedFile { file }.size());
        }
        size
    }

    #[tactic(auto, unfolding(pl_fields::specs::Fields::list, pl_fields::specs::Fields::count))]
    fn put(&self, out: &mut Vec<u8>) -> Result<(), Memory> {
        out.extend_from_slice(&(self.files.len() as u32).to_be_bytes())?;
        for file in self.files.as_slice() {
            UsedFile { file }.put(out)?;
        }
        Ok(())
    }
}

impl Short for UsedFiles<'_> {
    fn is_short(&self) -> bool {
        for file in self.files.as_slice() {
            if !(UsedFile { file }).is_short() {
                return false;
            }
        }
        self.files.len() < 4_294_967_296
    }
}
