//! The rows that the service keeps: what stands in each, how rows stand in bytes, and who keeps
//! them.
#![tactic(auto)]

mod copies;
mod decoding;
mod encoding;
mod ends;
mod fault;
mod in_memory;
mod keeper;
mod laws;
mod limits;
mod order;
mod parts;
mod records;

pub use decoding::decode;
pub use encoding::encode;
pub use fault::KeeperFault;
pub use in_memory::MemKeeper;
pub use keeper::Keeper;
pub use laws::record_laws;
pub use order::put_in_order;
pub use parts::row_from;
pub use pl_fields::DecodeFault;
pub use records::{
    JobEnd, KeptAgent, KeptDecision, KeptFile, KeptJob, KeptPipeline, KeptPrincipal, KeptResource,
    KeptRun, KeptStage, Meta, Record, StageEnd, Taking,
};
