//! Rows in order of table and key.

ghost use Rattle.std.specs.Prelude.{◌≡◌, ◌+◌, ◌≤◌, ◌<◌, ◌++◌, drop, filter, insert, length, take};
ghost use Rattle.std.specs.Prelude.{vec_len, IsPermutation};
ghost use Rattle.std.specs.Ordering.{is_lt};
ghost use Rattle.std.specs.List.Sorted.{IsSorted};
ghost use Rattle.std.specs.Vec.{vec_capacity};
ghost use Rattle.pl_keeper.specs.Keeping.{all_changed, changed, place, place_cmp, row_cmp};
ghost use Rattle.pl_keeper.specs.Keeping.{IsInOrder};

use pl_base::{Bytes, Change, Row};
use std::cmp::Ordering;

/// How a row stands to a table and a key.
fn order_to(row: &Row, table: u8, key: &Bytes) -> Ordering
    ensures { result ≡ place_cmp (place row.now) (table, key.now) }
{
    row.table
        .cmp(&table)
        .then(row.key.as_slice().cmp(key.as_slice()))
}

/// How a table and a key stand to a row.
fn order_from(table: u8, key: &Bytes, row: &Row) -> Ordering
    ensures { result ≡ place_cmp (table, key.now) (place row.now) }
{
    table
        .cmp(&row.table)
        .then(key.as_slice().cmp(row.key.as_slice()))
}

/// How two rows stand by table, key and body.
fn row_order(left: &Row, right: &Row) -> Ordering
    ensures { result ≡ row_cmp left.now right.now }
{
    order_to(left, right.table, &right.key).then(left.body.as_slice().cmp(right.body.as_slice()))
}

/// Puts rows in order of table and key, and rows of one table and key in order of their bodies. It
/// takes no memory.
pub fn put_in_order(rows: &mut [Row])
    ensures rows { IsPermutation rows.old rows.new }
    ensures sorted { IsSorted row_cmp rows.new }
    ensures order { IsInOrder rows.new }
{
    rows.sort_unstable_by(|left, right| row_order(left, right));
}

/// How many rows come before a table and a key.
fn count_before(rows: &[Row], table: u8, key: &Bytes) -> usize
    requires { IsInOrder rows.now }
    ensures within { result ≤ length rows.now }
    ensures front { take result rows.now ≡
        filter (λ row. is_lt (place_cmp (place row) (table, key.now))) rows.now }
{
    rows.partition_point(|row| order_to(row, table, key).is_lt())
}

/// How many rows don't come behind a table and a key.
fn count_to(rows: &[Row], table: u8, key: &Bytes) -> usize
    requires { IsInOrder rows.now }
    ensures within { result ≤ length rows.now }
    ensures back { drop result rows.now ≡
        filter (λ row. is_lt (place_cmp (table, key.now) (place row))) rows.now }
{
    rows.partition_point(|row| !order_from(table, key, row).is_lt())
}

/// Takes the rows out from one place on up to another one.
fn take_out(rows: &mut Vec<Row>, from: usize, to: usize)
    requires ordered { from ≤ to }
    requires within { to ≤ vec_len rows.old }
    ensures rows { rows.new.items ≡ take from rows.old.items ++ drop to rows.old.items }
    ensures len { vec_len rows.new ≤ vec_len rows.old }
    ensures capacity { vec_capacity rows.new ≡ vec_capacity rows.old }
{
    rows.drain(from..to);
}

/// Makes a change among rows that are in order. There is room for one row more.
fn change_row(rows: &mut Vec<Row>, change: Change)
    requires order { IsInOrder rows.old.items }
    requires room { vec_len rows.old < vec_capacity rows.old }
    ensures rows { rows.new.items ≡ changed rows.old.items change }
    ensures order { IsInOrder rows.new.items }
    ensures len { vec_len rows.new ≤ vec_len rows.old + 1 }
    ensures capacity { vec_capacity rows.new ≡ vec_capacity rows.old }
{
    let Change { table, key, body } = change;
    let from = count_before(rows.as_slice(), table, &key);
    let to = count_to(rows.as_slice(), table, &key);
    take_out(rows, from, to);
    if let Some(body) = body {
        put_row(rows, from, Row { table, key, body });
    }
}

/// Puts a row at a place. There is room for it.
fn put_row(rows: &mut Vec<Row>, at: usize, row: Row)
    requires within { at ≤ vec_len rows.old }
    requires room { vec_len rows.old < vec_capacity rows.old }
    ensures rows { rows.new.items ≡ insert rows.old.items at row }
    ensures len { vec_len rows.new ≡ vec_len rows.old + 1 }
    ensures capacity { vec_capacity rows.new ≡ vec_capacity rows.old }
{
    match rows.insert(at, row) {
        Ok(()) => {}
        Err(_) => unreachable!(),
    }
}

/// Makes changes among rows that are in order, one after the other. There is room for as many rows.
pub(crate) fn change_all(rows: &mut Vec<Row>, changes: Vec<Change>)
    requires order { IsInOrder rows.old.items }
    requires room { vec_len rows.old + vec_len changes ≤ vec_capacity rows.old }
    ensures rows { rows.new.items ≡ all_changed changes.items rows.old.items }
    ensures order { IsInOrder rows.new.items }
{
    let mut left = changes;
    left.reverse();
    while let Some(change) = left.pop() {
        change_row(rows, change);
    }
}
