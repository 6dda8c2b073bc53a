use pl_base::{ExactCopy, Memory, Text};
use std::alloc::Global;

/// A pipeline, and the name of a stage in it, by which it is the same stage in another run.
#[derive(Debug, Drop, PartialEq, Eq, PartialOrd, Ord)]
pub struct StageName {
    pub pipeline: Text,
    pub name: Text,
}

impl ExactCopy for StageName {
    fn copy(&self, alloc: Global) -> Result<StageName, Memory> {
        let pipeline = self.pipeline.copy(alloc)?;
        let name = self.name.copy(alloc)?;
        Ok(StageName { pipeline, name })
    }
}
