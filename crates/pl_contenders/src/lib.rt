//! The stages that contend for exclusive resources, and that hold them, each resource by one stage
//! alone, over queues.
#![tactic(auto)]

mod contenders;

pub use contenders::Contenders;
