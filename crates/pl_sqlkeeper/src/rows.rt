//! Rows as the table of the database has them.

ghost use Rattle.std.specs.Prelude.{◌≡◌, false, map, IfOk, IfSome, IsPermutation};
ghost use Rattle.std.specs.Prelude.{IsTrue};
ghost use Rattle.std.specs.List.{AllZip};
ghost use Rattle.sqlite.specs.Order.{column};
ghost use Rattle.sqlite.specs.Tree.{Trees};
ghost use Rattle.sqlite.specs.declared.types.Value.TheVariants.{Blob};
ghost use Rattle.sqlite.specs.State.{Survives};
ghost use Rattle.sqlite.specs.Held.{state};
ghost use Rattle.pl_keeper.specs.Keeping.{comes_before, IsInOrder, WhereTold};
ghost use Rattle.pl_sqlkeeper.specs.Kept.{read_row, rows_in, told_by, IsStrict, StaysOurs};
ghost use Rattle.pl_sqlkeeper.specs.Stored.{Stores};

use crate::looking::stored_rows;
use pl_base::{List, Row};
use pl_keeper::put_in_order;
use sqlite::types::ValueRef;
use sqlite::{Alter, Connection, Error, ErrorCode, Row as Stored};
use std::alloc::Global;

/// A row of the table that is none of ours, or a second one at a place.
pub(crate) const DAMAGED: Error = Error::SqliteFailure(ErrorCode::DatabaseCorrupt);

/// The bytes at a place of a row, from 0. Another kind of value, or none, is damage.
fn bytes_at(stored: &Stored, at: usize) -> Result<&[u8], Error>
    ensures { IfOk result (λ bytes. column stored.now at ≡ Blob bytes.now) }
{
    match stored.get_ref(at) {
        Ok(ValueRef::Blob(bytes)) => Ok(bytes),
        _ => Err(DAMAGED),
    }
}

/// The kept row that a row of the table stands for. A place without a table's byte is damage.
fn kept_in(alloc: Global, stored: &Stored) -> Result<Row, Error>
    ensures { IfOk result (Stores stored.now) }
{
    let [table, key @ ..] = bytes_at(stored, 0)? else {
        return Err(DAMAGED);
    };
    let body = bytes_at(stored, 1)?;
    let key = Vec::from_slice(alloc, key)?;
    let body = Vec::from_slice(alloc, body)?;
    Ok(Row {
        table: *table,
        key: List::from_vec(key),
        body: List::from_vec(body),
    })
}

/// The kept rows that rows of the table stand for, in the same order.
fn all_kept(alloc: Global, stored: &[Stored]) -> Result<Vec<Row>, Error>
    ensures { IfOk result (λ rows. AllZip Stores stored.now rows.items) }
{
    let mut rows = Vec::with_capacity(alloc, stored.len())?;
    for row in stored {
        rows.push(kept_in(alloc, row)?)?;
    }
    Ok(rows)
}

/// Whether a row comes before another one by table and key.
fn is_before(left: &Row, right: &Row) -> bool
    ensures { result ≡ comes_before left.now right.now }
{
    left.table
        .cmp(&right.table)
        .then(left.key.as_slice().cmp(right.key.as_slice()))
        .is_lt()
}

/// Whether each row comes before the next one, so that no two have one place.
fn are_apart(rows: &[Row]) -> bool
    ensures { IsTrue result → IsStrict rows.now }
{
    for at in 1..rows.len() {
        if !is_before(&rows[at - 1], &rows[at]) {
            return false;
        }
    }
    true
}

/// Rows in order of table and key.
fn sorted(rows: Vec<Row>) -> Vec<Row>
    ensures rows { IsPermutation rows.items result.items }
    ensures order { IsInOrder result.items }
{
    let mut rows = rows;
    put_in_order(&mut rows);
    rows
}

/// The kept rows that rows of the table stand for, in order of table and key.
fn arranged(alloc: Global, stored: &[Stored]) -> Result<List<Row>, Error>
    ensures told { IfOk result (λ rows. (db : Trees) →
        IsPermutation (map read_row (db 0)) stored.now → rows ≡ rows_in db) }
    ensures ordered { IfOk result IsInOrder }
{
    let kept = all_kept(alloc, stored)?;
    let rows = sorted(kept);
    if are_apart(rows.as_slice()) {
        Ok(List::from_vec(rows))
    } else {
        Err(DAMAGED)
    }
}

/// The rows of the table, in order of table and key.
pub(crate) fn read_rows<S: Alter>(
    conn: &mut Connection<S>,
    alloc: Global,
) -> Result<List<Row>, Error>
    requires idle { conn.old.in_transaction ≡ false }
    requires ours { StaysOurs (state S.Store conn.old) }
    ensures idle { conn.new.in_transaction ≡ false }
    ensures ours { StaysOurs (state S.Store conn.new) }
    ensures survives { Survives (state S.Store conn.old) (state S.Store conn.new) (λ _. ⊥) }
    ensures kept { WhereTold (told_by (state S.Store conn.old)) (told_by (state S.Store conn.new))
        (λ before after. after ≡ before) }
    ensures told { IfOk result (λ rows. IfSome (told_by (state S.Store conn.new))
        (λ held. rows ≡ held)) }
    ensures ordered { IfOk result IsInOrder }
{
    let stored = stored_rows(conn)?;
    arranged(alloc, stored.as_slice())
}
