//! The rows that the service keeps, in a table of a SQLite database.
#![tactic(auto)]

mod changes;
mod faults;
mod files;
mod keeper;
mod looking;
mod numbers;
mod opening;
mod place;
mod rows;
mod schema;

pub use files::FileKeeper;
pub use keeper::SqlKeeper;
pub use opening::Unopened;
