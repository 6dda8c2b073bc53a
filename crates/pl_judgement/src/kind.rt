ghost use Rattle.std.specs.Prelude.{◌≡◌};
ghost use Rattle.pl_judgement.specs.Kinds as spec;

use pl_checks::Check;

/// The kinds of checks, in the order in which they are asked.
#[derive(Clone, Copy)]
pub enum CheckKind {
    RequiredTemplate,
    Branch,
    Approval,
    Hours,
}

impl CheckKind {
    /// Whether a check is of this kind.
    pub fn is_of(self, check: &Check) -> bool
        ensures { result ≡ spec.is_of self check.now }
    {
        match (self, check) {
            (CheckKind::RequiredTemplate, Check::RequiredTemplate(_)) => true,
            (CheckKind::Branch, Check::Branch(_)) => true,
            (CheckKind::Approval, Check::Approval(_)) => true,
            (CheckKind::Hours, Check::Hours(_)) => true,
            _ => false,
        }
    }
}
