use crate::pipeline::{DependSpec, PoolSpec, StepSpec, Variable};
use pl_base::{ExactCopy, Memory};
use std::alloc::Global;

impl ExactCopy for DependSpec {
    fn copy(&self, alloc: Global) -> Result<DependSpec, Memory> {
        let name = self.name.copy(alloc)?;
        let place = self.place.copy(alloc)?;
        Ok(DependSpec { name, place })
    }
}

impl ExactCopy for PoolSpec {
    fn copy(&self, alloc: Global) -> Result<PoolSpec, Memory> {
        let name = self.name.copy(alloc)?;
        let demands = self.demands.copy(alloc)?;
        let vm_image = self.vm_image.copy(alloc)?;
        Ok(PoolSpec {
            name,
            demands,
            vm_image,
        })
    }
}

impl ExactCopy for StepSpec {
    fn copy(&self, alloc: Global) -> Result<StepSpec, Memory> {
        let form = self.form.copy(alloc)?;
        let place = self.place.copy(alloc)?;
        let body = self.body.copy(alloc)?;
        Ok(StepSpec { form, place, body })
    }
}

impl ExactCopy for Variable {
    fn copy(&self, alloc: Global) -> Result<Variable, Memory> {
        let name = self.name.copy(alloc)?;
        let value = self.value.copy(alloc)?;
        let late = self.late.copy(alloc)?;
        Ok(Variable { name, value, late })
    }
}
