use pl_base::{ExactCopy, Memory, Text};
use std::alloc::Global;
use std::test::Fail;

fn shared(alloc: Global, text: &str) -> Result<Text, Memory> {
    let own = Text::from_str(alloc, text)?;
    own.shared(alloc)
}

/// A copy of a text with more behind it.
fn longer(alloc: Global, text: &Text, more: &str) -> Result<Text, Memory> {
    let mut copy = text.copy(alloc)?;
    copy.push_str(more)?;
    Ok(copy)
}

/// Whether a text that is made has a longer copy, and stays as it was.
fn grows(alloc: Global, made: Result<Text, Memory>) -> Result<bool, Memory> {
    let text = made?;
    is_longer(alloc, &text)
}

fn is_longer(alloc: Global, text: &Text) -> Result<bool, Memory> {
    let long = longer(alloc, text, "d")?;
    Ok(long.as_str() == "sized" && text.as_str() == "size")
}

/// Copies of a text are texts of their own, also where they share its characters.
#[test]
fn copies_of_texts_are_their_own(rt: HostRuntime) -> Result<(), Fail> {
    let alloc = rt.alloc();
    assert!(rt; grows(alloc, Text::from_str(alloc, "size"))?);
    assert!(rt; grows(alloc, shared(alloc, "size"))?);
    assert!(rt; grows(alloc, shared(alloc, "size")?.copy(alloc))?);
    Ok(())
}

/// What a user is told where memory is wanting.
#[test]
fn want_of_memory_is_told(rt: HostRuntime) -> Result<(), Fail> {
    let told = Memory.to_string(rt.alloc())?;
    assert!(rt; told.as_str() == "out of memory");
    Ok(())
}
