ghost use Rattle.std.specs.Prelude.{◌≡◌};
ghost use Rattle.pl_schema_parts.specs.Gives.{IsRefusal};
ghost use Rattle.pl_schema_parts.specs.Rows.{has};

use crate::fault::{SchemaCode, SchemaFault, refusal};
use pl_base::{MarkedNode, MarkedPair};
use std::alloc::Global;

/// Whether a mapping has that key.
pub fn has(pairs: &[MarkedPair], key: &str) -> bool
    ensures { result ≡ has pairs.now key.now }
{
    pairs.iter().any(|pair| pair.key.as_str() == key)
}

/// A refusal at a node.
pub fn at_node(alloc: Global, code: SchemaCode, node: &MarkedNode) -> SchemaFault
    ensures { IsRefusal result code node.now.origin.source }
{
    refusal(alloc, code, &node.origin.source)
}

/// A refusal at a key.
pub fn at_key(alloc: Global, code: SchemaCode, pair: &MarkedPair) -> SchemaFault
    ensures { IsRefusal result code pair.now.key_origin.source }
{
    refusal(alloc, code, &pair.key_origin.source)
}
