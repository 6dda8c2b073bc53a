//! The service: what it was opened with, and the entries since, which are a legal history. What a
//! call is answered and adds is prepared first, and then installed.
#![tactic(auto)]

mod opening;
mod prepared;
mod rows;
mod service;
mod wanting;

pub use pl_facts::{Entry, Fact};
pub use pl_history::{access_laws, claim_laws};
pub use pl_journal::Numbers;
pub use pl_requests::{Body, Call, Json, Member, Members, Reply, Request};
pub use pl_snapshots::Snapshot;
pub use prepared::Prepared;
pub use rows::kept_laws;
pub use service::Core;
