//! What a service is opened with: the facts that kept rows tell.
#![tactic(auto)]

mod dated;
mod opening;
mod settings;
mod told;

pub use opening::facts_of;
