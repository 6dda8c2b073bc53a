ghost use Rattle.std.specs.Prelude.{◌≡◌, ◌↔◌, IsTrue, map};
ghost use Rattle.pl_literal.specs.Values.{alike, nodes_alike, pairs_alike, all_pass};
ghost use Rattle.pl_literal.specs.Values.{without_origins};

use pl_base::{List, MarkedNode, MarkedPair, Value};

/// Whether two values are the same, wherever they come from: of one type, texts and keys in each
/// letter, items and pairs in order. It takes no memory.
pub fn same_value(left: &Value, right: &Value) -> bool
    ensures same { IsTrue result ↔ (without_origins left.now ≡ without_origins right.now) }
    ensures test { result ≡ alike left.now right.now }
{
    values_alike(left, right)
}

#[cycle(same)]
fn values_alike(left: &Value, right: &Value) -> bool
    ensures { result ≡ alike left.now right.now }
{
    match (left, right) {
        (Value::Null, Value::Null) => true,
        (Value::Bool(left), Value::Bool(right)) => left == right,
        (Value::Number(left), Value::Number(right)) => left == right,
        (Value::Version(left), Value::Version(right)) => left == right,
        (Value::Str(left), Value::Str(right)) => left == right,
        (Value::Array(left), Value::Array(right)) => items_alike(left, right),
        (Value::Object(left), Value::Object(right)) => properties_alike(left, right),
        _ => false,
    }
}

#[cycle(same)]
#[tactic(auto, using(crate::proofs::Passing::of_two_lengths, crate::proofs::Passing::next_pair, crate::proofs::Passing::none_left))]
fn items_alike(left: &List<MarkedNode>, right: &List<MarkedNode>) -> bool
    ensures { result ≡ all_pass (map nodes_alike left.now) right.now }
{
    if left.len() != right.len() {
        return false;
    }
    for (index, item) in left.as_slice().iter().enumerate() {
        if !values_alike(&item.value, &right.as_slice()[index].value) {
            return false;
        }
    }
    true
}

#[cycle(same)]
#[tactic(auto, using(crate::proofs::Passing::of_two_lengths, crate::proofs::Passing::next_pair, crate::proofs::Passing::none_left))]
fn properties_alike(left: &List<MarkedPair>, right: &List<MarkedPair>) -> bool
    ensures { result ≡ all_pass (map pairs_alike left.now) right.now }
{
    if left.len() != right.len() {
        return false;
    }
    for (index, pair) in left.as_slice().iter().enumerate() {
        if !is_alike(pair, &right.as_slice()[index]) {
            return false;
        }
    }
    true
}

#[cycle(same)]
fn is_alike(left: &MarkedPair, right: &MarkedPair) -> bool
    ensures { result ≡ pairs_alike left.now right.now }
{
    left.key == right.key && values_alike(&left.item.value, &right.item.value)
}
