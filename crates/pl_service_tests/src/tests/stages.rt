use pl_base::{Behaviour, Kind, List, Memory, ResourceKey, Text};
use pl_locks::Contender;
use std::alloc::Global;

/// The resources that a word spells: `a` and `b` are pools, `A` is an environment with the pool's
/// name, and any other character is none.
fn resources_of(alloc: Global, word: &str) -> Result<List<ResourceKey>, Memory> {
    let mut resources = List::new(alloc);
    for letter in word.bytes() {
        let (kind, name) = match letter {
            b'a' => (Kind::Pool, "a"),
            b'b' => (Kind::Pool, "b"),
            b'A' => (Kind::Environment, "a"),
            _ => continue,
        };
        let name = Text::from_str(alloc, name)?;
        resources.push(ResourceKey { kind, name })?;
    }
    Ok(resources)
}

/// A stage; its pipeline, its name, its behaviour and its resources are words.
pub fn stage_of(
    alloc: Global,
    run: u64,
    position: u32,
    pipeline: &str,
    name: &str,
    behaviour: Behaviour,
    resources: &str,
) -> Result<Contender, Memory> {
    let pipeline = Text::from_str(alloc, pipeline)?;
    let name = Text::from_str(alloc, name)?;
    let resources = resources_of(alloc, resources)?;
    Ok(Contender {
        run,
        position,
        pipeline,
        name,
        behaviour,
        resources,
    })
}
