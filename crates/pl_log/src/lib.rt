//! A log: items in order, each about a key, and the latest item about a key.
#![tactic(auto)]

mod hashed;
mod kept;
mod key;
mod keyed;
mod log;
mod rows;
mod second_rows;
mod table;
mod walking;

pub use key::{Key, SecondKey};
pub use keyed::{Keyed, Test};
pub use log::Log;
