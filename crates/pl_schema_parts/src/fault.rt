ghost use Rattle.std.specs.Prelude.{◌≡◌};
ghost use Rattle.pl_schema_parts.specs.Codes.{code_of};
ghost use Rattle.pl_schema_parts.specs.Gives.{IsRefusal};

use pl_base::{ExactCopy, Memory, Place};
use std::alloc::Global;

/// What is wrong with a pipeline.
#[derive(Clone, Copy, Debug, PartialEq, Eq)]
pub enum SchemaCode {
    /// S1: a key that the object doesn't have.
    UnknownKey,
    /// S2: a key that must be there isn't, or its list is empty.
    MissingKey,
    /// S3: a scalar, a list or a mapping where another is wanted, or a text that isn't listed.
    WrongShape,
    /// S4: a name that no stage, job or step may have.
    BadName,
    /// S5: an item that begins with another key than its kind does.
    FirstKey,
    /// S6: a name that another stage, job or step has.
    NameTwice,
    /// S7: two keys of which one alone may stand.
    TwoForms,
    /// S8: a number that doesn't read or is past its limits.
    BadNumber,
    /// S9: a condition, or a variable that is an expression, that doesn't parse.
    BadCondition,
}

impl SchemaCode {
    /// The code's number, `S1` to `S9`.
    pub fn code(&self) -> &'static str
        ensures { result.now ≡ code_of self.now }
    {
        match self {
            SchemaCode::UnknownKey => "S1",
            SchemaCode::MissingKey => "S2",
            SchemaCode::WrongShape => "S3",
            SchemaCode::BadName => "S4",
            SchemaCode::FirstKey => "S5",
            SchemaCode::NameTwice => "S6",
            SchemaCode::TwoForms => "S7",
            SchemaCode::BadNumber => "S8",
            SchemaCode::BadCondition => "S9",
        }
    }
}

/// Why something is refused: what is wrong and where, or want of memory.
#[derive(Debug, Drop, PartialEq, Eq)]
pub enum PlacedFault<C> {
    Refused(C, Place),
    /// Memory was wanting.
    Memory,
}

/// Why a tree is no pipeline: what is wrong and where, or want of memory.
pub type SchemaFault = PlacedFault<SchemaCode>;

impl<C> From<Memory> for PlacedFault<C> {
    ghost use Rattle.std.specs.Prelude.{◌≡◌};
    ghost use Rattle.pl_schema_parts.specs.declared.fault.PlacedFault.TheVariants.{Memory};

    ghost from_gives = { λ _ fault. fault ≡ Memory };

    fn from(_refused: Memory) -> PlacedFault<C> {
        PlacedFault::Memory
    }
}

/// A refusal at a place, or want of memory.
pub fn refusal<C: Drop>(alloc: Global, code: C, place: &Place) -> PlacedFault<C>
    ensures { IsRefusal result code place.now }
{
    match place.copy(alloc) {
        Ok(place) => PlacedFault::Refused(code, place),
        Err(Memory) => PlacedFault::Memory,
    }
}
