ghost use Rattle.std.specs.Prelude.{◌≡◌, true, map};
ghost use Rattle.std.specs.List.{list_all};
ghost use Rattle.pl_round_trip.specs.Trees.{has_texts, texts_of_body, texts_of_pair};

use pl_base::{List, Node, NodeBody, NodePair};

/// Each scalar and each key of a tree is UTF-8, since each text is.
#[cycle(texts)]
pub(crate) fn node_is_text(node: &Node)
    ensures { has_texts node.now ≡ true }
{
    body_is_text(&node.body);
}

#[cycle(texts)]
fn body_is_text(body: &NodeBody)
    ensures { texts_of_body body.now ≡ true }
{
    match body {
        NodeBody::Scalar(text) => text.each_is_utf8(),
        NodeBody::Seq(items) => items_are_text(items),
        NodeBody::Map(pairs) => pairs_are_text(pairs),
    }
}

#[cycle(texts)]
fn items_are_text(items: &List<Node>)
    ensures { list_all (λ texts. texts) (map has_texts items.now) ≡ true }
{
    for item in items.as_slice() {
        node_is_text(item);
    }
}

#[cycle(texts)]
fn pairs_are_text(pairs: &List<NodePair>)
    ensures { list_all (λ texts. texts) (map texts_of_pair pairs.now) ≡ true }
{
    for pair in pairs.as_slice() {
        pair_is_text(pair);
    }
}

#[cycle(texts)]
fn pair_is_text(pair: &NodePair)
    ensures { texts_of_pair pair.now ≡ true }
{
    pair.key.each_is_utf8();
    node_is_text(&pair.item);
}
