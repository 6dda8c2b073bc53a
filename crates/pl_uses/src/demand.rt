use pl_base::{ExactCopy, Memory, Text};
use std::alloc::Global;

/// What a job asks of an agent: that it has a capability, with that value where one is told.
#[derive(Debug, Drop, PartialEq, Eq)]
pub struct Demand {
    pub name: Text,
    pub value: Option<Text>,
}

impl ExactCopy for Demand {
    fn copy(&self, alloc: Global) -> Result<Demand, Memory> {
        let name = self.name.copy(alloc)?;
        let value = self.value.copy(alloc)?;
        Ok(Demand { name, value })
    }
}
