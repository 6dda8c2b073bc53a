use pl_base::{
    Argument, Boxed, Crossing, ExactCopy, FileKey, List, Memory, Node, NodeBody, NodePair, Origin,
    Place, Refusal, Repository, Shared, SharedList, Text,
};
use std::alloc::Global;
use std::test::Fail;

// Each copy is the value by its clause, so that it is made is all that is asked.
fn has_copy<T: ExactCopy>(alloc: Global, value: &T) -> bool {
    value.copy(alloc).is_ok()
}

/// Whether a value that is made can be copied.
fn is_copied<T: ExactCopy>(alloc: Global, made: Result<T, Memory>) -> bool {
    match made {
        Ok(value) => has_copy(alloc, &value),
        Err(_) => false,
    }
}

fn key(alloc: Global, path: &str) -> Result<FileKey, Memory> {
    let repo = Text::from_str(alloc, "app")?;
    let git_ref = Text::from_str(alloc, "main")?;
    let path = Text::from_str(alloc, path)?;
    Ok(FileKey {
        repo,
        git_ref,
        path,
    })
}

fn file(alloc: Global) -> Result<Shared<FileKey>, Memory> {
    Shared::new(alloc, key(alloc, "/a.yml")?)
}

pub fn place(alloc: Global, line: u32) -> Result<Place, Memory> {
    let file = file(alloc)?;
    Place::at(alloc, &file, line, 1)
}

fn extends(alloc: Global) -> Result<Crossing, Memory> {
    Ok(Crossing::Extends(file(alloc)?))
}

fn include(alloc: Global) -> Result<Crossing, Memory> {
    let called = file(alloc)?;
    Ok(Crossing::Include(called, place(alloc, 2)?))
}

fn of_argument(alloc: Global) -> Result<Crossing, Memory> {
    let name = Text::from_str(alloc, "size")?;
    Ok(Crossing::Argument(name, place(alloc, 3)?))
}

fn crossings(alloc: Global) -> Result<SharedList<Crossing>, Memory> {
    let none = SharedList::new(alloc)?;
    none.with(alloc, Crossing::Made)
}

pub fn origin(alloc: Global, line: u32) -> Result<Origin, Memory> {
    let source = place(alloc, line)?;
    let crossings = crossings(alloc)?;
    Ok(Origin { source, crossings })
}

fn argument(alloc: Global) -> Result<Argument, Memory> {
    let name = Text::from_str(alloc, "size")?;
    let text = Text::from_str(alloc, "large")?;
    Ok(Argument { name, text })
}

fn repository(alloc: Global) -> Result<Repository, Memory> {
    let alias = Text::from_str(alloc, "lib")?;
    let name = Text::from_str(alloc, "shared")?;
    let git_ref = Text::from_str(alloc, "main")?;
    Ok(Repository {
        alias,
        name,
        git_ref,
    })
}

fn details(alloc: Global) -> Result<List<Text>, Memory> {
    let mut details = List::new(alloc);
    details.push(Text::from_str(alloc, "E1")?)?;
    Ok(details)
}

fn refusal(alloc: Global) -> Result<Refusal, Memory> {
    let code = Text::from_str(alloc, "X12")?;
    let place = place(alloc, 4)?;
    let detail = details(alloc)?;
    Ok(Refusal {
        code,
        place,
        detail,
    })
}

fn boxed(alloc: Global) -> Result<Boxed<Text>, Memory> {
    Boxed::new(alloc, Text::from_str(alloc, "inside")?)
}

#[test]
fn values_are_copied(rt: HostRuntime) -> Result<(), Fail> {
    let alloc = rt.alloc();
    assert!(rt; is_copied(alloc, key(alloc, "/a.yml")));
    assert!(rt; is_copied(alloc, place(alloc, 1)));
    assert!(rt; is_copied(alloc, argument(alloc)));
    assert!(rt; is_copied(alloc, repository(alloc)));
    assert!(rt; is_copied(alloc, refusal(alloc)));
    assert!(rt; is_copied(alloc, boxed(alloc)));
    assert!(rt; is_copied(alloc, Ok(Some(9u32))));
    Ok(())
}

#[test]
fn origins_and_crossings_are_copied(rt: HostRuntime) -> Result<(), Fail> {
    let alloc = rt.alloc();
    assert!(rt; is_copied(alloc, origin(alloc, 3)));
    assert!(rt; is_copied(alloc, extends(alloc)));
    assert!(rt; is_copied(alloc, include(alloc)));
    assert!(rt; is_copied(alloc, of_argument(alloc)));
    assert!(rt; is_copied(alloc, Ok(Crossing::Made)));
    Ok(())
}

fn scalar(alloc: Global) -> Result<Node, Memory> {
    let body = NodeBody::Scalar(Text::from_str(alloc, "one")?);
    node(alloc, body)
}

fn node(alloc: Global, body: NodeBody) -> Result<Node, Memory> {
    let place = place(alloc, 1)?;
    Ok(Node { place, body })
}

fn sequence(alloc: Global) -> Result<Node, Memory> {
    let mut items = List::new(alloc);
    items.push(scalar(alloc)?)?;
    node(alloc, NodeBody::Seq(items))
}

fn pair(alloc: Global, item: Node) -> Result<NodePair, Memory> {
    let key = Text::from_str(alloc, "steps")?;
    let key_place = place(alloc, 7)?;
    Ok(NodePair {
        key,
        key_place,
        item,
    })
}

/// A mapping of a sequence of a scalar.
fn mapping(alloc: Global) -> Result<Node, Memory> {
    let mut pairs = List::new(alloc);
    pairs.push(pair(alloc, sequence(alloc)?)?)?;
    node(alloc, NodeBody::Map(pairs))
}

#[test]
fn nodes_are_copied(rt: HostRuntime) -> Result<(), Fail> {
    let alloc = rt.alloc();
    assert!(rt; is_copied(alloc, mapping(alloc)));
    Ok(())
}
