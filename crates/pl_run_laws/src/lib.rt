//! Laws of what is due, run by run: which facts leave it as it was in a run, and that what is due
//! of all runs is the least of what is due in each.
#![tactic(auto)]

mod by_runs;
mod untouched;

pub use by_runs::by_runs_laws;
pub use untouched::untouched_laws;
