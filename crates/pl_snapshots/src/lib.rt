//! What is to be compiled for a request that queues a run: the files as they stand, the root file's
//! key and the arguments. It looks at what has happened, and changes nothing.
#![tactic(auto)]

mod gathering;
mod snapshot;
mod wanting;

pub use gathering::Gathered;
pub use snapshot::Snapshot;
pub use wanting::wanted;
