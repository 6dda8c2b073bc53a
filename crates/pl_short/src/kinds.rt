//! Values whose lengths are always the same.

use crate::short::Short;
use pl_base::{Digest, Kind, Outcome};
use pl_checks::Arguments;
use pl_rules::{Day, Role};

impl Short for u64 {
    fn is_short(&self) -> bool {
        true
    }
}

impl Short for u32 {
    fn is_short(&self) -> bool {
        true
    }
}

impl Short for bool {
    fn is_short(&self) -> bool {
        true
    }
}

impl Short for Outcome {
    fn is_short(&self) -> bool {
        true
    }
}

impl Short for Kind {
    fn is_short(&self) -> bool {
        true
    }
}

impl Short for Role {
    fn is_short(&self) -> bool {
        true
    }
}

impl Short for Day {
    fn is_short(&self) -> bool {
        true
    }
}

impl Short for Arguments {
    fn is_short(&self) -> bool {
        true
    }
}

impl Short for Digest {
    fn is_short(&self) -> bool {
        true
    }
}
