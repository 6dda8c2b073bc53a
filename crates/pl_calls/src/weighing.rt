use pl_base::{List, Memory, Node, NodeBody, NodePair};
use pl_budgets::Meter;
use pl_eval::{weight_of, work_of};
use pl_frame::Parameter;
use pl_params::{Given, under};

/// How many units of work a call is beside its parameters: its file is sought among those that are
/// used, and its path among the repositories.
const CALL: u64 = 512;

/// How many units of work it is to read, copy and judge one node of a declaration.
const NODE: u64 = 96;

/// How many units of work it is to call a template: its keys are gone over, its parameters are
/// declared, each name being compared with those before it, and bound to what is given.
pub fn work_of_calling(pairs: &List<NodePair>, given: &List<Given>) -> u64 {
    let keys = (pairs.len() as u64).saturating_mul(NODE);
    let given = (given.len() as u64).saturating_mul(NODE);
    let declared = work_of_declaring(under("parameters", pairs));
    CALL.saturating_add(keys)
        .saturating_add(given)
        .saturating_add(declared)
}

fn work_of_declaring(node: Option<&Node>) -> u64 {
    match node {
        Some(node) => work_of_comparing(node).saturating_add(work_of_node(node)),
        None => 0,
    }
}

/// Each name of a declaration is compared with those before it: half the square of how many there
/// are, and 1 for each eight of their bytes and each other name.
fn work_of_comparing(node: &Node) -> u64 {
    let (count, bytes) = match &node.body {
        NodeBody::Scalar(_) => (0, 0),
        NodeBody::Seq(items) => (items.len(), bytes_of_names(items)),
        NodeBody::Map(pairs) => (pairs.len(), bytes_of_keys(pairs)),
    };
    let count = count as u64;
    (count / 2).saturating_add(bytes / 8).saturating_mul(count)
}

/// How many bytes the names of declarations have together.
fn bytes_of_names(items: &List<Node>) -> u64 {
    let mut all = 0u64;
    for item in items.as_slice() {
        all = all.saturating_add(bytes_of_name(item));
    }
    all
}

/// How many bytes the name of a declaration has.
fn bytes_of_name(item: &Node) -> u64 {
    let NodeBody::Map(pairs) = &item.body else {
        return 0;
    };
    match under("name", pairs) {
        Some(
            Node {
                body: NodeBody::Scalar(name),
                ..
            },
        ) => name.len() as u64,
        _ => 0,
    }
}

/// How many bytes the names of declarations of the older form have together.
fn bytes_of_keys(pairs: &List<NodePair>) -> u64 {
    let mut all = 0u64;
    for pair in pairs.as_slice() {
        all = all.saturating_add(pair.key.len() as u64);
    }
    all
}

#[cycle(weighing)]
fn work_of_node(node: &Node) -> u64 {
    match &node.body {
        NodeBody::Scalar(text) => NODE.saturating_add(text.len() as u64),
        NodeBody::Seq(items) => NODE.saturating_add(work_of_items(items)),
        NodeBody::Map(pairs) => NODE.saturating_add(work_of_pairs(pairs)),
    }
}

#[cycle(weighing)]
fn work_of_items(items: &List<Node>) -> u64 {
    let mut all = 0u64;
    for item in items.as_slice() {
        all = all.saturating_add(work_of_node(item));
    }
    all
}

#[cycle(weighing)]
fn work_of_pairs(pairs: &List<NodePair>) -> u64 {
    let mut all = 0u64;
    for pair in pairs.as_slice() {
        let key = NODE.saturating_add(pair.key.len() as u64);
        all = all.saturating_add(key);
        all = all.saturating_add(work_of_node(&pair.item));
    }
    all
}

/// What a template's parameters hold counts as made, and as work. Memory where no more may be made.
pub fn keep_parameters(meter: &Meter, parameters: &List<Parameter>) -> Result<(), Memory> {
    for parameter in parameters.as_slice() {
        let weight = weight_of(&parameter.value.value);
        meter.make(weight)?;
        meter.work(work_of(weight))?;
    }
    Ok(())
}
