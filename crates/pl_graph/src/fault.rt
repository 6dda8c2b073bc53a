ghost use Rattle.std.specs.Prelude.{◌≡◌};

use pl_base::{List, Memory};

/// Why there is no order.
#[derive(Debug, Drop)]
pub enum GraphFault {
    /// A cycle: each node depends on the next one, and the last one on the first. Its code is G1.
    Cycle(List<u32>),
    /// A refused growth of memory.
    Memory,
}

impl From<Memory> for GraphFault {
    ghost use Rattle.pl_graph.specs.declared.fault.GraphFault.TheVariants.{Memory as WantOfMemory};

    ghost from_gives = { λ _ fault. fault ≡ WantOfMemory };

    fn from(_refused: Memory) -> GraphFault {
        GraphFault::Memory
    }
}
