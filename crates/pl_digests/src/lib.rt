//! SHA-256 digests (FIPS 180-4) as texts, and the digest that nobody may have.
#![tactic(auto)]

mod digests;
mod laws;

pub use digests::{digest_in, hex_of, is_of_nothing};
pub use laws::digest_laws;
