//! The service over a door: four workers at one hall.
#![tactic(auto)]

mod four;
mod seats;
mod serving;

pub use four::{Four, Outside};
pub use pl_hall::{Hall, Service};
pub use serving::{Ended, serve};
