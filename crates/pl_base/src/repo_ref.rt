use crate::exact_copy::ExactCopy;
use crate::memory::Memory;
use crate::text::Text;
use std::alloc::Global;

/// A repository and the git ref under which it is read.
#[derive(Debug, Drop, PartialEq, Eq)]
pub struct RepoRef {
    pub repo: Text,
    pub git_ref: Text,
}

impl ExactCopy for RepoRef {
    fn copy(&self, alloc: Global) -> Result<RepoRef, Memory> {
        let repo = self.repo.copy(alloc)?;
        let git_ref = self.git_ref.copy(alloc)?;
        Ok(RepoRef { repo, git_ref })
    }
}
