use pl_base::{FileKey, Memory, Node, NodeBody, Text};
use pl_yaml::{YamlFault, read};
use std::alloc::Global;
use std::test::Fail;

/// A step list of so many steps.
fn steps(alloc: Global, count: u32) -> Result<Text, Memory> {
    let mut text = Text::from_str(alloc, "steps:\n")?;
    for _ in 0..count {
        text.push_str("- script: a\n")?;
    }
    Ok(text)
}

fn file(alloc: Global) -> FileKey {
    FileKey {
        repo: Text::new(alloc),
        git_ref: Text::new(alloc),
        path: Text::new(alloc),
    }
}

/// How many steps stand in a step list, and the line and the column of the last one.
fn told(node: &Node) -> Option<(usize, u32, u32)> {
    let NodeBody::Map(pairs) = &node.body else {
        return None;
    };
    let pair = pairs.as_slice().first()?;
    let NodeBody::Seq(steps) = &pair.item.body else {
        return None;
    };
    let last = steps.as_slice().last()?;
    Some((steps.as_slice().len(), last.place.line, last.place.col))
}

/// What is told of so many steps, or nothing where they aren't read.
fn steps_read(alloc: Global, count: u32) -> Result<Option<(usize, u32, u32)>, Memory> {
    let text = steps(alloc, count)?;
    match read(alloc, text.as_bytes(), &file(alloc)) {
        Ok(node) => Ok(told(&node)),
        Err(YamlFault::Memory) => Err(Memory),
        Err(YamlFault::Refused(..)) => Ok(None),
    }
}

#[test]
fn reads_steps_to_the_last_one(rt: HostRuntime) -> Result<(), Fail> {
    let steps = steps_read(rt.alloc(), 2_000)?;
    assert!(rt; matches!(steps, Some((2_000, 2_001, 3))));
    let steps = steps_read(rt.alloc(), 2_001)?;
    assert!(rt; matches!(steps, Some((2_001, 2_002, 3))));
    Ok(())
}
