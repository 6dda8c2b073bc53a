/// What the service holds: since it was opened how many entries, and how many bytes their texts
/// have, as `pl_facts::size_of` counts them; and the number of the next change of a kept row.
#[derive(Clone, Copy)]
pub struct Held {
    pub entries: u64,
    pub size: u64,
    pub change: u64,
}
