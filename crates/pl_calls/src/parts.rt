ghost use Rattle.std.specs.Prelude.{◌≡◌};
ghost use Rattle.std.specs.Option.{option_copied};
ghost use Rattle.pl_calls.specs.Parts.{body_of, text_in, items_in, pairs_in};
ghost use Rattle.pl_params.specs.Nodes.{under};
ghost use Rattle.pl_calls.specs.Parts.{key_place_of, text_under};

use pl_base::{List, Node, NodeBody, NodePair, Place, Text};
use pl_params::under;

/// A scalar's text.
pub fn text_of(node: &Node) -> Option<&Text>
    ensures { option_copied result ≡ text_in (body_of node.now) }
{
    match &node.body {
        NodeBody::Scalar(text) => Some(text),
        _ => None,
    }
}

/// A sequence's items.
pub fn items_of(node: &Node) -> Option<&List<Node>>
    ensures { option_copied result ≡ items_in (body_of node.now) }
{
    match &node.body {
        NodeBody::Seq(items) => Some(items),
        _ => None,
    }
}

/// A mapping's pairs.
pub fn pairs_of(node: &Node) -> Option<&List<NodePair>>
    ensures { option_copied result ≡ pairs_in (body_of node.now) }
{
    match &node.body {
        NodeBody::Map(pairs) => Some(pairs),
        _ => None,
    }
}

/// The text under a key.
pub fn text_under<'n>(key: &str, pairs: &'n List<NodePair>) -> Option<&'n Text>
    ensures { option_copied result ≡ text_under key.now pairs.now }
{
    text_of(under(key, pairs)?)
}

/// Where a key stands.
#[tactic(auto, using(pl_base::proofs::Finding::find_drop_yes, pl_base::proofs::Finding::find_drop_no))]
pub fn key_place<'n>(key: &str, pairs: &'n List<NodePair>) -> Option<&'n Place>
    ensures { option_copied result ≡ key_place_of key.now pairs.now }
{
    for pair in pairs.as_slice() {
        if pair.key.as_str() == key {
            return Some(&pair.key_place);
        }
    }
    None
}
