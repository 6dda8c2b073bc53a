//! A rehearsal of the service: generated runs on a service of its own, and what they come to.
#![tactic(auto)]

mod counting;
mod line;
mod rehearsal;
mod summary;

pub use line::summary_line;
pub use rehearsal::rehearse;
pub use summary::Summary;
