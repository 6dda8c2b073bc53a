//! The service as a value that desks take: what is answered to a call, and what of that is compiled
//! before. What a desk makes of a message is said here too.
#![tactic(auto)]

mod ahead;
mod applying;
mod calls;
mod fault;
mod laws;
mod opening;
mod service;

pub use ahead::Ahead;
pub use fault::OpenFault;
pub use laws::desks_grow;
pub use opening::Unopened;
pub use pl_opening::{Call, Entry, Reply, Request, Snapshot, access_laws, claim_laws, kept_laws};
pub use service::Service;
