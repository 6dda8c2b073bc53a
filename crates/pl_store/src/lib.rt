//! Where the program keeps its rows: in memory, or in a database file; and what people are told
//! where that file can't be taken over.
#![tactic(auto)]

mod files;
mod foreign;
mod looking;
mod refusal;
mod store;

pub use files::ProgramStore;
pub use refusal::Refusal;
pub use store::RowStore;
