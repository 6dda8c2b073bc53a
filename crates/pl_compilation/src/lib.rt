//! What a request that queues a run is compiled to.
#![tactic(auto)]

mod laws;
mod making;

pub use laws::compilations_can_run;
pub use making::compiled;
