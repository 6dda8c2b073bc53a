ghost use Rattle.std.specs.Prelude.{◌≡◌, ◌++◌, OnOk};
ghost use Rattle.pl_graph.specs.Waits.{edges_of_one};

use pl_base::{List, Memory};

/// Puts the edges from the one at a place to those for whom it waits behind those that are there,
/// in order. After Memory some of them may stand there.
pub fn push_edges(edges: &mut List<(u32, u32)>, at: u32, depends: &[u32]) -> Result<(), Memory>
    ensures { OnOk result (edges.new ≡ edges.old ++ edges_of_one at depends.now) }
{
    for other in depends {
        edges.push((at, *other))?;
    }
    Ok(())
}
