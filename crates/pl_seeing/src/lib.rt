//! What is seen of kept rows: what each is read as, once, and of a run's row the compile of its
//! sources, which runs of the same sources share.
#![tactic(auto)]

mod laws;
mod making;
mod ordering;
mod same;
mod seeing;
mod sharing;

pub use laws::seeing_laws;
pub use seeing::seen_rows;
