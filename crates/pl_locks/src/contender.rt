ghost use Rattle.std.specs.Prelude.{◌≡◌, ◌↔◌, Contains, IsTrue};
ghost use Rattle.pl_locks.specs.Locks.{GivesWay, Precedes, Shares};
ghost use Rattle.pl_locks.specs.Kept.{is_at};

use pl_base::{Behaviour, ExactCopy, List, Memory, ResourceKey, Text};
use std::alloc::Global;

/// A stage of a run that uses exclusive resources.
#[derive(Debug, Drop)]
pub struct Contender {
    /// The number of its run; later runs have greater ones.
    pub run: u64,
    /// Its place in its run, which with the run's number names it.
    pub position: u32,
    /// The pipeline that the run is of.
    pub pipeline: Text,
    /// Its name, by which it is the same stage in another run of the pipeline.
    pub name: Text,
    /// Whether all runs take their turns, or only the latest does.
    pub behaviour: Behaviour,
    /// The exclusive ones of the resources that it uses.
    pub resources: List<ResourceKey>,
}

impl Contender {
    /// Whether this is the stage of that run at that position.
    pub(crate) fn is_at(&self, run: u64, position: u32) -> bool
        ensures { result ≡ is_at run position self.now }
    {
        self.run == run && self.position == position
    }

    /// Whether this stage is of an earlier run, or stands at an earlier position of the same run.
    pub(crate) fn precedes(&self, other: &Contender) -> bool
        ensures { IsTrue result ↔ Precedes self.now other.now }
    {
        self.run < other.run || (self.run == other.run && self.position < other.position)
    }

    /// Whether both stages use one exclusive resource.
    pub(crate) fn shares(&self, other: &Contender) -> bool
        ensures { IsTrue result ↔ Shares self.now other.now }
    {
        self.resources
            .as_slice()
            .iter()
            .any(|resource| uses(other, resource))
    }

    /// Whether this stage gives way to that one once both are eligible.
    pub(crate) fn gives_way(&self, later: &Contender) -> bool
        ensures { IsTrue result ↔ GivesWay self.now later.now }
    {
        self.behaviour == Behaviour::RunLatest
            && self.pipeline == later.pipeline
            && self.name == later.name
            && self.run < later.run
            && self.shares(later)
    }
}

impl ExactCopy for Contender {
    fn copy(&self, alloc: Global) -> Result<Contender, Memory> {
        let pipeline = self.pipeline.copy(alloc)?;
        let name = self.name.copy(alloc)?;
        let resources = self.resources.copy(alloc)?;
        Ok(Contender {
            run: self.run,
            position: self.position,
            pipeline,
            name,
            behaviour: self.behaviour,
            resources,
        })
    }
}

/// Whether a stage uses an exclusive resource.
fn uses(stage: &Contender, resource: &ResourceKey) -> bool
    ensures { IsTrue result ↔ Contains stage.now.resources resource.now }
{
    stage.resources.as_slice().contains(resource)
}
