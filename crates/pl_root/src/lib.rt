//! Root files of pipelines before they are expanded: what their literal keys say, their parameters,
//! their frames, and the files that they are read from.
#![tactic(auto)]

mod aliases;
mod arguments;
mod complaints;
mod counting;
mod frames;
mod mem_files;
mod repositories;
mod resources;
mod root_key;

pub use arguments::parameters_by;
pub use complaints::first_complaint;
pub use frames::{first_frame, second_frame};
pub use mem_files::MemFiles;
pub use repositories::repositories_of;
pub use root_key::RootKey;
