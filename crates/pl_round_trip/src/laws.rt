ghost use Rattle.std.specs.Prelude.{◌≡◌, ◌≤◌, true, length};
ghost use Rattle.pl_printing.specs.Printed.{printed};
ghost use Rattle.pl_yaml.specs.Spells.{spells};
ghost use Rattle.pl_round_trip.specs.Trees.{depth, keys_differ, ReadsAs};

use crate::utf8::node_is_text;
use pl_base::{FileKey, Node};

/// What is printed of a tree reads as that tree, up to the places of its nodes and keys: for every
/// tree in which at most 64 collections are open at one place and no mapping has a key twice (one
/// that begins with `${{` may stand twice), and of which at most 262,144 bytes are printed.
pub fn what_is_printed_reads_back(file: &FileKey, node: &Node)
    ensures { depth node.now ≤ 64 → keys_differ node.now ≡ true →
        length (printed node.now) ≤ 262144 →
        ReadsAs file.now node.now (spells file.now (printed node.now)) }
{
    node_is_text(node);
}
