use pl_base::{Memory, Text};
use pl_bundle::bundle_of;
use std::alloc::Global;
use std::test::Fail;

/// A bundle of so many empty files.
fn empty_files(alloc: Global, count: u32) -> Result<Text, Memory> {
    let mut text = Text::new(alloc);
    for number in 0..count {
        let line = format!(in alloc; "%%% app refs/heads/main /{number}\n")?;
        text.push_str(line.as_str())?;
    }
    Ok(text)
}

/// Whether so many files are a bundle. None where memory is wanting.
fn is_bundle(alloc: Global, count: u32) -> Result<Option<bool>, Memory> {
    let text = empty_files(alloc, count)?;
    match bundle_of(alloc, text.as_bytes()) {
        Ok(bundle) => Ok(Some(bundle.is_some())),
        Err(_) => Ok(None),
    }
}

#[test]
fn more_than_ten_thousand_files_are_want_of_memory(rt: HostRuntime) -> Result<(), Fail> {
    let alloc = rt.alloc();
    assert_eq!(rt; is_bundle(alloc, 10_000)?, Some(true));
    assert_eq!(rt; is_bundle(alloc, 10_001)?, None);
    Ok(())
}
