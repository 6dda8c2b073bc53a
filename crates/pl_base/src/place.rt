ghost use Rattle.std.specs.Prelude.{◌≡◌, IfOk};
ghost use Rattle.pl_base.specs.Places.{place_at};

use crate::exact_copy::ExactCopy;
use crate::memory::Memory;
use crate::shared::Shared;
use crate::text::Text;
use std::alloc::Global;

/// Where a file is: its repository, the git ref under which it is read, and its path from the
/// repository's root. Keys are ordered by these three, each by its bytes.
#[derive(Debug, Drop, PartialEq, Eq, PartialOrd, Ord)]
pub struct FileKey {
    pub repo: Text,
    pub git_ref: Text,
    pub path: Text,
}

/// A place in a file: its line and its column, both from 1. Columns count Unicode scalar values.
/// The places of one file share its key.
#[derive(Debug, Drop, PartialEq, Eq)]
pub struct Place {
    pub file: Shared<FileKey>,
    pub line: u32,
    pub col: u32,
}

impl Place {
    /// A place in a file, whose key it shares.
    pub fn at(alloc: Global, file: &Shared<FileKey>, line: u32, col: u32) -> Result<Place, Memory>
        ensures { IfOk result (λ place. place ≡ place_at file.now line col) }
    {
        let file = file.copy(alloc)?;
        Ok(Place { file, line, col })
    }
}

impl ExactCopy for FileKey {
    fn copy(&self, alloc: Global) -> Result<FileKey, Memory> {
        let repo = self.repo.copy(alloc)?;
        let git_ref = self.git_ref.copy(alloc)?;
        let path = self.path.copy(alloc)?;
        Ok(FileKey {
            repo,
            git_ref,
            path,
        })
    }
}

impl ExactCopy for Place {
    fn copy(&self, alloc: Global) -> Result<Place, Memory> {
        let file = self.file.copy(alloc)?;
        Ok(Place {
            file,
            line: self.line,
            col: self.col,
        })
    }
}
