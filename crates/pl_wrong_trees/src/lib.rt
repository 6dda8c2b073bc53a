//! Wrong trees of a pipeline that the clauses on origins and on texts refuse by themselves.
#![tactic(auto)]

mod laws;
mod tracing;

pub use laws::{
    a_border_leads_into_a_source, no_text_stands_in_another_place, what_is_no_call_calls_nothing,
};
pub use tracing::traced;
