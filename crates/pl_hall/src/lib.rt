//! The hall: clerks answer requests at once, each in turns of one lock over the service, and stand
//! in one history. What a request wants to be compiled is compiled between two turns.
#![tactic(auto)]

mod clerk;
mod gate;
mod hall;
mod laws;
mod turns;

pub use clerk::Clerk;
pub use gate::{Free, Gate};
pub use hall::Hall;
pub use laws::sessions_grow;
pub use pl_service::Service;
