//! Time zones of business hours: which texts name one, and what day and minute its clocks show.
#![tactic(auto)]

mod fixed;
mod laws;
mod local;
mod zone;

pub use laws::zone_laws;
pub use local::Local;
pub use zone::{Zone, ZoneFault, zone_of};
