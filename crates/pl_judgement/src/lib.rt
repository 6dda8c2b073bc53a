//! What several checks say of a stage together: the first rule by which one fails, and the first by
//! which one waits (Microsoft Learn, Azure Pipelines, "Define approvals and checks").
#![tactic(auto)]

mod judgement;
mod kind;
mod laws;

pub use judgement::Judgement;
pub use kind::CheckKind;
pub use laws::judgement_laws;
