//! Rows with what was read in them, by their places.

ghost use Rattle.std.specs.Prelude.{◌≡◌, [], false, slice_get, IsTrue};
ghost use Rattle.std.specs.Option.{option_and_then, option_copied, option_map_or};
ghost use Rattle.pl_changes.specs.Differing.{stands_at};
ghost use Rattle.pl_keeper.specs.Keeping.{place, place_cmp};
ghost use Rattle.pl_torn.specs.Finding.{if_there, is_before, IsCut};
ghost use Rattle.pl_torn.specs.Seen as spec;

use pl_base::{Row, Shared};
use pl_keeper::{KeptJob, KeptPrincipal, KeptStage, Record};
use pl_plan::Compiled;
use std::cmp::Ordering;

/// A row, what was read in it (None where it is no record's that is within the limits), and of a
/// run's row what its sources compile to (None where they don't, or where that has other sources).
#[derive(Drop)]
pub struct Seen<'r> {
    pub row: &'r Row,
    pub kept: Option<Record>,
    pub compiled: Option<Shared<Compiled>>,
}

/// How a row stands to a place.
fn order_to(row: &Row, table: u8, key: &[u8]) -> Ordering
    ensures { result ≡ place_cmp (place row.now) (table, key.now) }
{
    let keys = row.key.as_slice().cmp(key);
    row.table.cmp(&table).then(keys)
}

/// Whether a row stands at a place.
pub(crate) fn stands_at(row: &Row, table: u8, key: &[u8]) -> bool
    ensures { result ≡ stands_at (table, key.now) row.now }
{
    order_to(row, table, key).is_eq()
}

/// Whether the row of a number comes before a place; behind the last one none does.
fn comes_before(all: &[Seen<'_>], at: usize, table: u8, key: &[u8]) -> bool
    ensures { result ≡ option_map_or (is_before (table, key.now)) (slice_get all.now at) false }
{
    match all.get(at) {
        Some(one) => order_to(one.row, table, key).is_lt(),
        None => false,
    }
}

/// Whether so many rows come before a place: the last of them does, and the row behind them
/// doesn't.
fn is_cut(all: &[Seen<'_>], count: usize, table: u8, key: &[u8]) -> bool
    requires order { spec.AreInOrder all.now }
    ensures { IsTrue result → IsCut (table, key.now) all.now count }
{
    if count > all.len() {
        return false;
    }
    if comes_before(all, count, table, key) {
        return false;
    }
    if count == 0 {
        return true;
    }
    comes_before(all, count - 1, table, key)
}

/// How many rows come before a place. If it is this number, two looks tell it.
fn count_before(all: &[Seen<'_>], near: usize, table: u8, key: &[u8]) -> usize
    requires order { spec.AreInOrder all.now }
    ensures { IsCut (table, key.now) all.now result }
{
    if is_cut(all, near, table, key) {
        return near;
    }
    all.partition_point(|one| order_to(one.row, table, key).is_lt())
}

/// What was found, if it stands at a place.
fn if_there<'s, 'r>(found: Option<&'s Seen<'r>>, table: u8, key: &[u8]) -> Option<&'s Seen<'r>>
    ensures { option_copied result ≡
        option_and_then (if_there (table, key.now)) (option_copied found.entry) }
{
    match found {
        Some(one) if stands_at(one.row, table, key) => Some(one),
        _ => None,
    }
}

/// The row that stands at a place, with what was read in it. Where it has this number, two looks
/// find it, and else as many steps as there are halves of halves of the rows.
pub(crate) fn seen_at<'s, 'r>(
    all: &'s [Seen<'r>],
    near: usize,
    table: u8,
    key: &[u8],
) -> Option<&'s Seen<'r>>
    requires order { spec.AreInOrder all.now }
    ensures { option_copied result ≡ spec.seen_at (table, key.now) all.now }
{
    let found = row_of(all, count_before(all, near, table, key));
    if_there(found, table, key)
}

/// The row of a number.
fn row_of<'s, 'r>(all: &'s [Seen<'r>], at: usize) -> Option<&'s Seen<'r>>
    ensures { option_copied result ≡ slice_get all.now at }
{
    all.get(at)
}

/// The row at the first of all places, that of the service's numbers.
pub(crate) fn first_row<'s, 'r>(all: &'s [Seen<'r>]) -> Option<&'s Seen<'r>>
    requires order { spec.AreInOrder all.now }
    ensures { option_copied result ≡ spec.seen_at (0, []) all.now }
{
    if_there(all.first(), 0, &[])
}

/// The record of what was read in a row, by its table: of a principal.
pub(crate) fn principal_of<'s>(one: &'s Seen<'_>) -> Option<&'s KeptPrincipal>
    ensures { option_copied result ≡ spec.principal_of one.now }
{
    match &one.kept {
        Some(Record::Principal(told)) => Some(told),
        _ => None,
    }
}

/// The same of a stage.
pub(crate) fn stage_of<'s>(one: &'s Seen<'_>) -> Option<&'s KeptStage>
    ensures { option_copied result ≡ spec.stage_of one.now }
{
    match &one.kept {
        Some(Record::Stage(told)) => Some(told),
        _ => None,
    }
}

/// The same of a job.
pub(crate) fn job_of<'s>(one: &'s Seen<'_>) -> Option<&'s KeptJob>
    ensures { option_copied result ≡ spec.job_of one.now }
{
    match &one.kept {
        Some(Record::Job(told)) => Some(told),
        _ => None,
    }
}
