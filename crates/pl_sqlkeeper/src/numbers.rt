//! The numbers of the table's rows, by which the database takes rows out.

ghost use Rattle.std.specs.Prelude.{length, IsTrue};
ghost use Rattle.std.specs.List.{AllAdjacentBelow, AllByRecursion};
ghost use Rattle.pl_sqlkeeper.specs.Kept.{AreApart, HasNumber, Rises};

use sqlite::Row as Stored;
use sqlite::types::ValueRef;

/// Whether a row begins with a number.
fn has_number(stored: &Stored) -> bool
    ensures { IsTrue result → HasNumber stored.now }
{
    matches!(stored.get_ref(0), Ok(ValueRef::Int(_)))
}

/// Whether the second row's number is above the first one's.
fn rises(first: &Stored, second: &Stored) -> bool
    ensures { IsTrue result → Rises first.now second.now }
{
    match (first.get_ref(0), second.get_ref(0)) {
        (Ok(ValueRef::Int(low)), Ok(ValueRef::Int(high))) => low < high,
        _ => false,
    }
}

/// Whether each row begins with a number.
fn all_have_numbers(stored: &[Stored]) -> bool
    ensures { IsTrue result → AllByRecursion HasNumber stored.now }
{
    for row in stored {
        if !has_number(row) {
            return false;
        }
    }
    true
}

/// Whether the numbers rise from each row to the next.
fn all_rise(stored: &[Stored]) -> bool
    ensures { IsTrue result → AllAdjacentBelow Rises stored.now (length stored.now) }
{
    for at in 1..stored.len() {
        if !rises(&stored[at - 1], &stored[at]) {
            return false;
        }
    }
    true
}

/// Whether each row has a number of its own.
#[tactic(auto, using(crate::proofs::Numbering::apart_from_rising))]
pub(crate) fn are_numbered(stored: &[Stored]) -> bool
    ensures { IsTrue result → AreApart stored.now }
{
    all_have_numbers(stored) && all_rise(stored)
}
