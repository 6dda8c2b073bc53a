use crate::exact_copy::ExactCopy;
use crate::memory::Memory;
use crate::text::Text;
use std::alloc::Global;

/// What kind of resource a stage can use (Microsoft Learn, Azure Pipelines, "Approvals and
/// checks").
#[derive(Clone, Copy, Debug, PartialEq, Eq, PartialOrd, Ord)]
pub enum Kind {
    Environment,
    Connection,
    Group,
    Pool,
    Repository,
}

/// A resource by its kind and its name. Keys are ordered by kind, and then by the name's bytes.
#[derive(Debug, Drop, PartialEq, Eq, PartialOrd, Ord)]
pub struct ResourceKey {
    pub kind: Kind,
    pub name: Text,
}

impl ExactCopy for ResourceKey {
    fn copy(&self, alloc: Global) -> Result<ResourceKey, Memory> {
        let name = self.name.copy(alloc)?;
        Ok(ResourceKey {
            kind: self.kind,
            name,
        })
    }
}
