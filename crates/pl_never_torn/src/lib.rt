//! No code, laws: what keeps rows of a state from being torn, a point each.
#![tactic(auto)]

mod laws;

pub use laws::never_torn_laws;
pub use pl_granting_laws::{granting_laws, history_laws};
pub use pl_leg_limits::leg_laws;
pub use pl_sources::sources_compile_again;
