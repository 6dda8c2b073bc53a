//! Decisions of approvers about stages: what the request is answered. It looks at what has
//! happened, and changes nothing.
#![tactic(auto)]

mod approvers;
mod deciding;

pub use deciding::decide;
