//! Checks.

use crate::short::Short;
use pl_checks::Check;

impl Short for Check {
    fn is_short(&self) -> bool {
        match self {
            Check::RequiredTemplate(told) => told.templates.is_short(),
            Check::Branch(told) => told.patterns.is_short(),
            Check::Approval(told) => told.approvers.is_short(),
            Check::Hours(told) => (&told.days, &told.zone).is_short(),
        }
    }
}
