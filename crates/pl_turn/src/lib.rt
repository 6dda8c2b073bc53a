//! A lock over one value. Its seats take the value in turns, and stand in one history of it.
#![tactic(auto)]

mod laws;
mod seat;
mod standing;
mod stepping;
mod turn_lock;
mod view;

pub use laws::{no_entry_is_of_two_seats, seats_stand_in_one_history};
pub use seat::Seat;
pub use standing::Standing;
pub use turn_lock::TurnLock;
