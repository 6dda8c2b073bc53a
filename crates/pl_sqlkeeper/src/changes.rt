//! Changes of rows, made in one transaction.

ghost use Rattle.std.specs.Prelude.{◌≡◌, ◌∷◌, [], false, Some, IsTrue, OnErr, OnOk};
ghost use Rattle.sqlite.specs.Tree.{Trees};
ghost use Rattle.sqlite.specs.State.{HasCleanDisk, KeepsCommit, Survives};
ghost use Rattle.sqlite.specs.Held.{state};
ghost use Rattle.sqlite.specs.declared.types.Value.TheVariants.{Blob};
ghost use Rattle.pl_keeper.specs.Keeping.{all_changed, WhereTold};
ghost use Rattle.pl_sqlkeeper.specs.Kept.{rows_in, told_by, StaysOurs};
ghost use Rattle.pl_sqlkeeper.specs.Statements.{put_text, take_text, IsMade, IsUndone, Makes};
ghost use Rattle.pl_sqlkeeper.specs.Statements.{Changed, Ran, RanAll, Replaced};

use crate::place::place_of;
use pl_base::{Change, List};
use sqlite::{Alter, Connection, Error, Transaction, params};
use std::alloc::Global;

/// Puts a row in. It answers how many rows changed.
fn put_row<S: Alter>(tx: &mut Transaction<'_, S>, place: &[u8], body: &[u8]) -> Result<usize, Error>
    ensures same_reference { tx.new.conn.ghost_name ≡ tx.old.conn.ghost_name }
    ensures survives { Survives (state S.Store tx.old.conn.now) (state S.Store tx.new.conn.now)
        (λ _. ⊥) }
    ensures kept { HasCleanDisk (state S.Store tx.new.conn.now) →
        IsTrue tx.old.conn.now.in_transaction →
        KeepsCommit (state S.Store tx.old.conn.now) (state S.Store tx.new.conn.now) }
    ensures ran { HasCleanDisk (state S.Store tx.new.conn.now) →
        IsTrue tx.old.conn.now.in_transaction → OnOk result (Ran S.Store put_text
        (Blob place.now ∷ Blob body.now ∷ []) tx.old.conn.now tx.new.conn.now) }
{
    tx.execute(
        "INSERT INTO pallwethig_rows_1 (place, body) VALUES (?1, ?2)",
        params![place, body],
    )
}

/// Takes the row at a place out, if there is one. It answers how many rows changed.
fn take_row<S: Alter>(tx: &mut Transaction<'_, S>, place: &[u8]) -> Result<usize, Error>
    ensures same_reference { tx.new.conn.ghost_name ≡ tx.old.conn.ghost_name }
    ensures survives { Survives (state S.Store tx.old.conn.now) (state S.Store tx.new.conn.now)
        (λ _. ⊥) }
    ensures kept { HasCleanDisk (state S.Store tx.new.conn.now) →
        IsTrue tx.old.conn.now.in_transaction →
        KeepsCommit (state S.Store tx.old.conn.now) (state S.Store tx.new.conn.now) }
    ensures ran { HasCleanDisk (state S.Store tx.new.conn.now) →
        IsTrue tx.old.conn.now.in_transaction → OnOk result (Ran S.Store take_text
        (Blob place.now ∷ []) tx.old.conn.now tx.new.conn.now) }
{
    tx.execute(
        "DELETE FROM pallwethig_rows_1 WHERE place = ?1",
        params![place],
    )
}

/// Puts a row in, in the place of the one that has its place. It answers how many rows came.
fn replace_row<S: Alter>(
    tx: &mut Transaction<'_, S>,
    place: &[u8],
    body: &[u8],
) -> Result<usize, Error>
    ensures same_reference { tx.new.conn.ghost_name ≡ tx.old.conn.ghost_name }
    ensures survives { Survives (state S.Store tx.old.conn.now) (state S.Store tx.new.conn.now)
        (λ _. ⊥) }
    ensures kept { HasCleanDisk (state S.Store tx.new.conn.now) →
        IsTrue tx.old.conn.now.in_transaction →
        KeepsCommit (state S.Store tx.old.conn.now) (state S.Store tx.new.conn.now) }
    ensures ran { HasCleanDisk (state S.Store tx.new.conn.now) →
        IsTrue tx.old.conn.now.in_transaction → OnOk result (Replaced S.Store place.now
        (Some body.now) tx.old.conn.now tx.new.conn.now) }
{
    take_row(tx, place)?;
    put_row(tx, place, body)
}

/// Makes one change, inside a transaction. It answers how many rows changed.
fn change_one<S: Alter>(
    tx: &mut Transaction<'_, S>,
    alloc: Global,
    change: &Change,
) -> Result<usize, Error>
    ensures same_reference { tx.new.conn.ghost_name ≡ tx.old.conn.ghost_name }
    ensures survives { Survives (state S.Store tx.old.conn.now) (state S.Store tx.new.conn.now)
        (λ _. ⊥) }
    ensures kept { HasCleanDisk (state S.Store tx.new.conn.now) →
        IsTrue tx.old.conn.now.in_transaction →
        KeepsCommit (state S.Store tx.old.conn.now) (state S.Store tx.new.conn.now) }
    ensures ran { HasCleanDisk (state S.Store tx.new.conn.now) →
        IsTrue tx.old.conn.now.in_transaction →
        OnOk result (Changed S.Store change.now tx.old.conn.now tx.new.conn.now) }
{
    let place = place_of(alloc, change.table, change.key.as_slice())?;
    match &change.body {
        Some(body) => replace_row(tx, place.as_slice(), body.as_slice()),
        None => take_row(tx, place.as_slice()),
    }
}

/// Makes the changes in order, up to the first that is refused, inside a transaction.
fn change_all<S: Alter>(
    tx: &mut Transaction<'_, S>,
    alloc: Global,
    changes: &[Change],
) -> Result<(), Error>
    ensures same_reference { tx.new.conn.ghost_name ≡ tx.old.conn.ghost_name }
    ensures survives { Survives (state S.Store tx.old.conn.now) (state S.Store tx.new.conn.now)
        (λ _. ⊥) }
    ensures kept { HasCleanDisk (state S.Store tx.new.conn.now) →
        IsTrue tx.old.conn.now.in_transaction →
        KeepsCommit (state S.Store tx.old.conn.now) (state S.Store tx.new.conn.now) }
    ensures ran { HasCleanDisk (state S.Store tx.new.conn.now) →
        IsTrue tx.old.conn.now.in_transaction →
        OnOk result (RanAll S.Store changes.now tx.old.conn.now tx.new.conn.now) }
{
    for change in changes {
        change_one(tx, alloc, change)?;
    }
    Ok(())
}

/// Makes all changes, in order and in one transaction, or none.
///
/// A crash leaves what it could leave before the call, or the database with all changes; after Ok
/// the latter alone. After an error the database, where it is still open, is as it was last
/// committed.
fn make_all<S: Alter>(
    conn: &mut Connection<S>,
    alloc: Global,
    changes: &List<Change>,
) -> Result<(), Error>
    requires { conn.old.in_transaction ≡ false }
    ensures idle { conn.new.in_transaction ≡ false }
    ensures crash { Survives (state S.Store conn.old) (state S.Store conn.new)
        (Makes S.Store changes.now conn.old) }
    ensures made { OnOk result (HasCleanDisk (state S.Store conn.new) →
        IsMade S.Store changes.now conn.old conn.new) }
    ensures lasting { OnOk result (HasCleanDisk (state S.Store conn.new) → (db : Trees) →
        (state S.Store conn.new).may_leave db → Makes S.Store changes.now conn.old db) }
    ensures none { OnErr result (HasCleanDisk (state S.Store conn.new) →
        IsUndone (state S.Store conn.old) (state S.Store conn.new)) }
{
    let mut tx = conn.transaction();
    change_all(&mut tx, alloc, changes.as_slice())?;
    tx.commit()?;
    Ok(())
}

/// Makes all changes, in order and in one transaction, or none, over the keeper's own table.
///
/// A crash leaves what it could leave before the call, or the rows with all changes; after Ok the
/// latter alone. After an error the rows, where they are still told, are as before.
pub(crate) fn keep_all<S: Alter>(
    conn: &mut Connection<S>,
    alloc: Global,
    changes: &List<Change>,
) -> Result<(), Error>
    requires idle { conn.old.in_transaction ≡ false }
    requires ours { StaysOurs (state S.Store conn.old) }
    ensures idle { conn.new.in_transaction ≡ false }
    ensures ours { StaysOurs (state S.Store conn.new) }
    ensures crash { Survives (state S.Store conn.old) (state S.Store conn.new)
        (λ db. rows_in db ≡ all_changed changes.now (rows_in (state S.Store conn.old).now.trees)) }
    ensures applied { OnOk result (WhereTold (told_by (state S.Store conn.old))
        (told_by (state S.Store conn.new))
        (λ before after. after ≡ all_changed changes.now before)) }
    ensures tells { OnOk result (HasCleanDisk (state S.Store conn.new) →
        IsTrue (state S.Store conn.new).is_open) }
    ensures lasting { OnOk result (HasCleanDisk (state S.Store conn.new) → (db : Trees) →
        (state S.Store conn.new).may_leave db →
        rows_in db ≡ all_changed changes.now (rows_in (state S.Store conn.old).now.trees)) }
    ensures kept { OnErr result (WhereTold (told_by (state S.Store conn.old))
        (told_by (state S.Store conn.new)) (λ before after. after ≡ before)) }
{
    let _settled = conn.is_autocommit();
    make_all(conn, alloc, changes)
}
