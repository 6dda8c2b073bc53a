//! Bundles: files in one text, each behind a line `%%% REPO REF PATH`, the root file first.
#![tactic(auto)]

mod bundle;
mod head;
mod laws;
mod lines;
mod reading;

pub use bundle::Bundle;
pub use laws::written_is_read;
pub use reading::bundle_of;
