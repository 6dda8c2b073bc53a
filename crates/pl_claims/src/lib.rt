//! What exclusive locks let happen next, found by what stages claim: each stage is looked at once,
//! and not beside each other one, as `pl_locks` does, whose definitions these are (Microsoft Learn,
//! Azure Pipelines, "Define approvals and checks", Exclusive lock).
#![tactic(auto)]

mod claim;
mod latest;
mod next;

pub use latest::any_superseded;
pub use next::next_of;
