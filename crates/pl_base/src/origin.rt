use crate::exact_copy::ExactCopy;
use crate::memory::Memory;
use crate::place::{FileKey, Place};
use crate::shared::Shared;
use crate::shared_list::SharedList;
use crate::text::Text;
use std::alloc::Global;

/// A border of templates that a node crossed on its way into the expanded tree.
#[derive(Debug, Drop, PartialEq, Eq)]
pub enum Crossing {
    /// The root file extends this template.
    Extends(Shared<FileKey>),
    /// This template was included, by the `template` item at this place.
    Include(Shared<FileKey>, Place),
    /// The parameter of this name was taken by the expression at this place.
    Argument(Text, Place),
    /// An expression made the node.
    Made,
}

/// Where a node or a key of the expanded tree comes from: where it is written, and the borders
/// that it crossed since, in order. Origins whose crossings begin alike share these.
#[derive(Debug, Drop, PartialEq, Eq)]
pub struct Origin {
    pub source: Place,
    pub crossings: SharedList<Crossing>,
}

impl ExactCopy for Crossing {
    fn copy(&self, alloc: Global) -> Result<Crossing, Memory> {
        match self {
            Crossing::Extends(file) => Ok(Crossing::Extends(file.copy(alloc)?)),
            Crossing::Include(file, place) => {
                let file = file.copy(alloc)?;
                let place = place.copy(alloc)?;
                Ok(Crossing::Include(file, place))
            }
            Crossing::Argument(name, place) => {
                let name = name.copy(alloc)?;
                let place = place.copy(alloc)?;
                Ok(Crossing::Argument(name, place))
            }
            Crossing::Made => Ok(Crossing::Made),
        }
    }
}

impl ExactCopy for Origin {
    fn copy(&self, alloc: Global) -> Result<Origin, Memory> {
        let source = self.source.copy(alloc)?;
        let crossings = self.crossings.copy(alloc)?;
        Ok(Origin { source, crossings })
    }
}
