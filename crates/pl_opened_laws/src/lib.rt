//! What holds of the facts that kept rows tell where none of them is torn.
#![tactic(auto)]

mod laws;

pub use laws::opened_laws;
pub use pl_compilation::{compilations_can_run, compiled};
pub use pl_opened::facts_of;
pub use pl_seeing::{seeing_laws, seen_rows};
