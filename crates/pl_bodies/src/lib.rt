//! What the bodies of requests say: JSON values (RFC 8259), as `serde_json` reads them, into the
//! fields of requests. Limits of these fields aren't judged here.
#![tactic(auto)]

mod atoms;
mod checks;
mod content;
mod fault;
mod field;
mod lists;
mod named;
mod settings;
mod words;

pub use content::no_content;
pub use fault::BodyFault;
pub use settings::{
    agent_of, order_of, pipeline_of, principal_of, report_of, resource_of, verdict_of,
};
