//! The changes of what differs.

ghost use Rattle.std.specs.Prelude.{◌≡◌, ◌++◌, ◌∷◌, [], cond, map, not, IfOk, OnOk};
ghost use Rattle.pl_changes.specs.Differing as spec;

use crate::looking::{have_place, have_row};
use pl_base::{Change, List, Memory, Row};
use std::alloc::Global;

/// The changes of what differs between rows before and behind: the rows go at whose place nothing
/// is any more, and then those come that weren't there, or weren't so. Memory where memory is
/// wanting.
pub fn differing(alloc: Global, before: &[Row], behind: &[Row]) -> Result<List<Change>, Memory>
    ensures { IfOk result (λ changes. changes ≡ spec.differing before.now behind.now) }
{
    let mut changes = Vec::new(alloc);
    add_gone(alloc, &mut changes, before, behind)?;
    add_come(alloc, &mut changes, before, behind)?;
    Ok(List::from_vec(changes))
}

/// Puts the changes of the rows that go behind the others. What is left after Memory isn't told.
fn add_gone(
    alloc: Global,
    changes: &mut Vec<Change>,
    before: &[Row],
    behind: &[Row],
) -> Result<(), Memory>
    ensures { OnOk result (changes.new.items ≡
        changes.old.items ++ map spec.going (spec.gone before.now behind.now)) }
{
    for row in before {
        add_if_gone(alloc, changes, behind, row)?;
    }
    Ok(())
}

/// Puts the change of a row behind the others if the row goes.
fn add_if_gone(
    alloc: Global,
    changes: &mut Vec<Change>,
    behind: &[Row],
    row: &Row,
) -> Result<(), Memory>
    ensures { OnOk result (changes.new.items ≡ changes.old.items ++
        cond (not (spec.have_place behind.now row.now)) (spec.going row.now ∷ []) []) }
{
    if !have_place(behind, row) {
        changes.push(going(alloc, row)?)?;
    }
    Ok(())
}

/// The same of the rows that come.
fn add_come(
    alloc: Global,
    changes: &mut Vec<Change>,
    before: &[Row],
    behind: &[Row],
) -> Result<(), Memory>
    ensures { OnOk result (changes.new.items ≡
        changes.old.items ++ map spec.coming (spec.come before.now behind.now)) }
{
    for row in behind {
        add_if_come(alloc, changes, before, row)?;
    }
    Ok(())
}

/// Puts the change of a row behind the others if the row comes.
fn add_if_come(
    alloc: Global,
    changes: &mut Vec<Change>,
    before: &[Row],
    row: &Row,
) -> Result<(), Memory>
    ensures { OnOk result (changes.new.items ≡ changes.old.items ++
        cond (not (spec.have_row before.now row.now)) (spec.coming row.now ∷ []) []) }
{
    if !have_row(before, row) {
        changes.push(coming(alloc, row)?)?;
    }
    Ok(())
}

/// The change by which a row goes.
fn going(alloc: Global, row: &Row) -> Result<Change, Memory>
    ensures { IfOk result (λ change. change ≡ spec.going row.now) }
{
    let key = List::from_slice(alloc, row.key.as_slice())?;
    Ok(Change {
        table: row.table,
        key,
        body: None,
    })
}

/// The change by which a row comes.
fn coming(alloc: Global, row: &Row) -> Result<Change, Memory>
    ensures { IfOk result (λ change. change ≡ spec.coming row.now) }
{
    let key = List::from_slice(alloc, row.key.as_slice())?;
    let body = List::from_slice(alloc, row.body.as_slice())?;
    Ok(Change {
        table: row.table,
        key,
        body: Some(body),
    })
}
