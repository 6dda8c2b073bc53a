use pl_base::{FileKey, List, Memory, Node, NodeBody, NodePair, Place, Shared, Text};
use pl_printing::write;
use pl_yaml::{YamlCode, YamlFault, read};
use std::alloc::Global;
use std::test::Fail;

/// A file without a name.
fn file(alloc: Global) -> FileKey {
    FileKey {
        repo: Text::new(alloc),
        git_ref: Text::new(alloc),
        path: Text::new(alloc),
    }
}

/// The fault of bytes, with its line and its column.
fn fault_of(alloc: Global, bytes: &[u8]) -> Result<Option<(YamlCode, u32, u32)>, Memory> {
    match read(alloc, bytes, &file(alloc)) {
        Ok(_) => Ok(None),
        Err(YamlFault::Refused(code, place)) => Ok(Some((code, place.line, place.col))),
        Err(YamlFault::Memory) => Err(Memory),
    }
}

fn is_no_text(alloc: Global, bytes: &[u8]) -> Result<bool, Memory> {
    Ok(matches!(fault_of(alloc, bytes)?, Some((YamlCode::NotUtf8, 1, 1))))
}

// Bytes that are no text.
#[test]
fn bytes_that_are_no_text(rt: HostRuntime) -> Result<(), Fail> {
    assert!(rt; is_no_text(rt.alloc(), b"\xff")?);
    assert!(rt; is_no_text(rt.alloc(), b"a: \xff")?);
    assert!(rt; is_no_text(rt.alloc(), b"\t\xff")?);
    Ok(())
}

/// The first column of the first line.
fn place(alloc: Global) -> Result<Place, Memory> {
    let file = Shared::new(alloc, file(alloc))?;
    Place::at(alloc, &file, 1, 1)
}

fn node_of(alloc: Global, body: NodeBody) -> Result<Node, Memory> {
    let place = place(alloc)?;
    Ok(Node { place, body })
}

/// A sequence around a node.
fn around(alloc: Global, node: Node) -> Result<Node, Memory> {
    let mut items = List::new(alloc);
    items.push(node)?;
    node_of(alloc, NodeBody::Seq(items))
}

/// So many sequences around the empty one.
fn nested(alloc: Global, count: u8) -> Result<Node, Memory> {
    let mut node = node_of(alloc, NodeBody::Seq(List::new(alloc)))?;
    for _ in 0..count {
        node = around(alloc, node)?;
    }
    Ok(node)
}

/// The key `k` with an empty scalar.
fn pair(alloc: Global) -> Result<NodePair, Memory> {
    let item = node_of(alloc, NodeBody::Scalar(Text::new(alloc)))?;
    pair_of(alloc, item)
}

fn pair_of(alloc: Global, item: Node) -> Result<NodePair, Memory> {
    let key_place = place(alloc)?;
    let key = Text::from_str(alloc, "k")?;
    Ok(NodePair {
        key,
        key_place,
        item,
    })
}

fn doubled(alloc: Global) -> Result<Node, Memory> {
    let mut pairs = List::new(alloc);
    pairs.push(pair(alloc)?)?;
    pairs.push(pair(alloc)?)?;
    node_of(alloc, NodeBody::Map(pairs))
}

/// The fault of what is written of a node.
fn fault_again(alloc: Global, node: &Node) -> Result<Option<(YamlCode, u32, u32)>, Memory> {
    let bytes = write(alloc, node)?;
    fault_of(alloc, bytes.as_slice())
}

fn is_too_deep(alloc: Global, count: u8) -> Result<bool, Memory> {
    let node = nested(alloc, count)?;
    Ok(matches!(fault_again(alloc, &node)?, Some((YamlCode::TooDeep, _, _))))
}

fn is_doubled(alloc: Global) -> Result<bool, Memory> {
    let node = doubled(alloc)?;
    Ok(matches!(
        fault_again(alloc, &node)?,
        Some((YamlCode::DuplicateKey, 2, 1))
    ))
}

// What is written of a tree that no text spells isn't read: more than 64 collections in one
// another, and a key that stands twice.
#[test]
fn trees_that_no_text_spells(rt: HostRuntime) -> Result<(), Fail> {
    assert!(rt; is_too_deep(rt.alloc(), 64)?);
    assert!(rt; is_doubled(rt.alloc())?);
    Ok(())
}
