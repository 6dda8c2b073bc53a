//! Laws of where the nodes of an expanded pipeline come from.
#![tactic(auto)]

mod expansion;
mod laws;

pub use expansion::expand;
pub use laws::{
    origins_tell_used_files, readers_name_their_file, steps_come_through_the_template,
    texts_are_those_of_their_places, what_no_argument_gave_is_written_where_it_is_told,
    written_jobs_come_from_the_template_and_its_calls,
};
pub use pl_expand::{Files, MemFiles, Parsed};
