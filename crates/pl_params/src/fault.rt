use crate::earliest::Placed;
use crate::kind::ParamKind;
use pl_base::{Place, Text};
use std::fmt;
use thiserror::Error;

/// What came where something else was wanted: an atom, as the text that it is cast to, a sequence
/// or a mapping.
#[derive(Debug, Drop, PartialEq, Eq)]
pub enum Found {
    Atom(Text),
    Sequence,
    Mapping,
}

impl fmt::Display for Found {
    fn fmt<W: fmt::Write>(&self, f: &mut fmt::Formatter<W>) -> fmt::Result {
        match self {
            Found::Atom(text) => write!(f, "{text:?}"),
            Found::Sequence => f.write_str("this list"),
            Found::Mapping => f.write_str("this mapping"),
        }
    }
}

/// What is wrong with the form of a declaration.
#[derive(Debug, Drop, Error, PartialEq, Eq)]
pub enum Misdeclared {
    /// The declarations are neither a sequence nor a mapping.
    #[error("parameters are declared by a list or a mapping, and {0:?} is neither")]
    NoCollection(Text),
    /// An item of the declarations isn't a mapping.
    #[error("a parameter is declared by a mapping, and {0} is none")]
    NoMapping(Found),
    /// There is no name, or it is empty or not a text.
    #[error("a parameter has no name")]
    NoName,
    /// A key that isn't `name`, `type`, `default`, `values` or `displayName`.
    #[error("{0:?} is no key of a parameter")]
    UnknownKey(Text),
    /// The values aren't a sequence.
    #[error("allowed values are a list, and {0} is none")]
    NoValues(Found),
}

/// What is wrong with a declaration or with what is given.
#[derive(Debug, Drop, Error, PartialEq, Eq)]
pub enum ParamProblem {
    /// P1: no type has that name.
    #[error("parameter {0:?}: {1} is no type of parameters")]
    TypeUnknown(Text, Found),
    /// P2: the name stands twice, the case of ASCII's letters aside.
    #[error("parameter {0:?} is declared twice")]
    Duplicate(Text),
    /// P3: the default isn't of the type, or isn't among the allowed values.
    #[error("parameter {0:?}: its default {2} is not {1}, or is not among its allowed values")]
    BadDefault(Text, ParamKind, Found),
    /// P4: nothing is given, and there is no default.
    #[error("parameter {0:?}: {1} is wanted, and nothing is given")]
    Missing(Text, ParamKind),
    /// P5: no parameter of that name is declared.
    #[error("parameter {0:?} is given, and no such parameter is declared")]
    Unexpected(Text),
    /// P6: what is given isn't of the type.
    #[error("parameter {0:?}: {2} is not {1}")]
    NotOfType(Text, ParamKind, Found),
    /// P7: what is given isn't among the allowed values.
    #[error("parameter {0:?}: {1} is not among its allowed values")]
    NotAllowed(Text, Found),
    /// P8: the declaration has another form.
    #[error("{0}")]
    BadDeclaration(Misdeclared),
}

/// What is wrong, and where.
#[derive(Debug, Drop, Error, PartialEq, Eq)]
#[error("{problem}")]
pub struct Complaint {
    pub problem: ParamProblem,
    pub place: Place,
}

impl Placed for Complaint {
    ghost place = { λ complaint. complaint.place };

    fn stands_at(&self) -> &Place {
        &self.place
    }
}

/// Why parameters aren't declared or bound.
#[derive(Debug, Drop, Error, PartialEq, Eq)]
pub enum ParamFault {
    #[error("{0}")]
    Refused(Complaint),
    /// Memory was wanting.
    #[error("out of memory")]
    Memory,
}

impl From<pl_base::Memory> for ParamFault {
    ghost use Rattle.std.specs.Prelude.{◌≡◌};
    ghost use Rattle.pl_params.specs.declared.fault.ParamFault.TheVariants.{Memory};

    ghost from_gives = { λ _ fault. fault ≡ Memory };

    fn from(_refused: pl_base::Memory) -> ParamFault {
        ParamFault::Memory
    }
}

ghost use Rattle.std.specs.Prelude.{◌≡◌};
ghost use Rattle.pl_params.specs.Codes.{code_of};

impl ParamProblem {
    /// The problem's code, `P1` to `P8`.
    pub fn code(&self) -> &'static str
        ensures { result.now ≡ code_of self.now }
    {
        match self {
            ParamProblem::TypeUnknown(_, _) => "P1",
            ParamProblem::Duplicate(_) => "P2",
            ParamProblem::BadDefault(_, _, _) => "P3",
            ParamProblem::Missing(_, _) => "P4",
            ParamProblem::Unexpected(_) => "P5",
            ParamProblem::NotOfType(_, _, _) => "P6",
            ParamProblem::NotAllowed(_, _) => "P7",
            ParamProblem::BadDeclaration(_) => "P8",
        }
    }
}
