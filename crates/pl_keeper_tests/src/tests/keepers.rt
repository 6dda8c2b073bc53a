use pl_base::{Bytes, Change, List, Memory, Row};
use pl_keeper::{Keeper, KeeperFault, MemKeeper};
use std::alloc::Global;
use std::test::Fail;

/// A row of one byte each.
fn row(alloc: Global, table: u8, key: u8, body: u8) -> Result<Row, Memory> {
    let key = List::from_slice(alloc, [key].as_slice())?;
    let body = List::from_slice(alloc, [body].as_slice())?;
    Ok(Row { table, key, body })
}

/// A change of such a row, or one that takes it away.
fn change(alloc: Global, table: u8, key: u8, body: Option<u8>) -> Result<Change, Memory> {
    let key = List::from_slice(alloc, [key].as_slice())?;
    let body = body_of(alloc, body)?;
    Ok(Change { table, key, body })
}

fn body_of(alloc: Global, body: Option<u8>) -> Result<Option<Bytes>, Memory> {
    match body {
        Some(byte) => Ok(Some(List::from_slice(alloc, [byte].as_slice())?)),
        None => Ok(None),
    }
}

/// Three rows, out of order.
fn three_rows(alloc: Global) -> Result<List<Row>, Memory> {
    let mut rows = List::new(alloc);
    rows.push(row(alloc, 2, 1, 10)?)?;
    rows.push(row(alloc, 1, 9, 11)?)?;
    rows.push(row(alloc, 1, 3, 12)?)?;
    Ok(rows)
}

/// A row goes, one changes, and one comes.
fn three_changes(alloc: Global) -> Result<List<Change>, Memory> {
    let mut changes = List::new(alloc);
    changes.push(change(alloc, 1, 9, None)?)?;
    changes.push(change(alloc, 2, 1, Some(20))?)?;
    changes.push(change(alloc, 1, 5, Some(21))?)?;
    Ok(changes)
}

/// Whether these are the bodies of the rows that a keeper tells.
fn tells(alloc: Global, keeper: &mut MemKeeper, bodies: &[u8]) -> Result<bool, KeeperFault> {
    let rows = keeper.rows(alloc)?;
    let mut all = rows.len() == bodies.len();
    for (row, body) in rows.as_slice().iter().zip(bodies) {
        all = all && row.body.as_slice() == [*body].as_slice();
    }
    Ok(all)
}

/// Three rows, and the second and the fifth call fail.
fn failing_keeper(alloc: Global) -> Result<MemKeeper, Memory> {
    let failing = List::from_slice(alloc, [2u64, 5].as_slice())?;
    Ok(MemKeeper::new(three_rows(alloc)?, failing))
}

/// Whether a failing call changes nothing and is counted.
fn fails_whole(
    alloc: Global,
    keeper: &mut MemKeeper,
    changes: &List<Change>,
) -> Result<bool, KeeperFault> {
    let in_order = tells(alloc, keeper, [12, 11, 10].as_slice())?;
    let failed = keeper.apply(alloc, changes) == Err(KeeperFault::Failed) && keeper.faults() == 1;
    Ok(in_order && failed && tells(alloc, keeper, [12, 11, 10].as_slice())?)
}

/// Whether a call makes all changes, and the next one fails and is counted.
fn changes_all(
    alloc: Global,
    keeper: &mut MemKeeper,
    changes: &List<Change>,
) -> Result<bool, KeeperFault> {
    let changed = keeper.apply(alloc, changes) == Ok(()) && keeper.faults() == 1;
    let failed = matches!(keeper.rows(alloc), Err(KeeperFault::Failed)) && keeper.faults() == 2;
    Ok(changed && failed && tells(alloc, keeper, [12, 21, 20].as_slice())?)
}

fn changes_or_nothing(alloc: Global, keeper: &mut MemKeeper) -> Result<bool, KeeperFault> {
    let changes = three_changes(alloc)?;
    Ok(fails_whole(alloc, keeper, &changes)? && changes_all(alloc, keeper, &changes)?)
}

// Rows are told in order of table and key, a failing call changes nothing and is counted, and all
// changes of another call are made.
#[test]
fn changes_or_none(rt: HostRuntime) -> Result<(), Fail> {
    let mut keeper = failing_keeper(rt.alloc())?;
    assert!(rt; changes_or_nothing(rt.alloc(), &mut keeper)?);
    Ok(())
}
