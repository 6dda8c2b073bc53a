//! A rehearsal on a desk: the generated input is asked, and then jobs are drawn and reported until
//! a draw gives none.
#![tactic(auto)]

mod asking;
mod drawn;
mod rehearsal;

pub use rehearsal::rehearse_on;
