//! The rows that stand at the places that facts touch.
#![tactic(auto)]

mod events;
mod places;
mod plans;
mod touching;

pub use pl_spots::{Spot, row_at};
pub use touching::touched_rows;
