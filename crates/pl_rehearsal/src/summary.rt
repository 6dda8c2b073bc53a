/// What a rehearsal comes to: how many runs were queued, how many jobs were reported, and how many
/// stages gave way to later runs.
#[derive(Clone, Copy, Debug, PartialEq, Eq)]
pub struct Summary {
    pub runs: u64,
    pub jobs: u64,
    pub superseded: u64,
}
