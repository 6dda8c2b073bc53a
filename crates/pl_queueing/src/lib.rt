//! What a request is answered that queues a run, by what its pipeline was compiled to. It looks at
//! what has happened, and changes nothing.
#![tactic(auto)]

mod queueing;

pub use queueing::queue;
