//! A service that is opened again, of the rows that were kept.
#![tactic(auto)]

mod fault;
mod numbers;
mod opening;

pub use fault::RowsFault;
pub use opening::open;
pub use pl_core::{
    Call, Core, Entry, Prepared, Reply, Request, Snapshot, access_laws, claim_laws, kept_laws,
};
pub use pl_opened_laws::{compilations_can_run, compiled, opened_laws, seeing_laws};
