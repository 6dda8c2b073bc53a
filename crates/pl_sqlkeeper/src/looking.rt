//! Questions to the database that change nothing.

ghost use Rattle.std.specs.Prelude.{◌≡◌, false, map, IfOk, IsPermutation, IsTrue};
ghost use Rattle.sqlite.specs.State.{HasCleanDisk, Survives};
ghost use Rattle.sqlite.specs.Held.{state};
ghost use Rattle.pl_keeper.specs.Keeping.{WhereTold};
ghost use Rattle.pl_sqlkeeper.specs.Kept.{read_row, told_by, AreApart, StaysOurs};
ghost use Rattle.pl_sqlkeeper.specs.Schema.{kept_schema};
ghost use Rattle.pl_sqlkeeper.specs.Statements.{IsUndone, Looked};

use sqlite::{Alter, Connection, Error, Row as Stored};

/// The answer of a query. It is asked in a transaction of its own, which is rolled back, so nothing
/// is committed.
fn look<S: Alter>(conn: &mut Connection<S>, sql: &str) -> Result<Vec<Stored>, Error>
    requires { conn.old.in_transaction ≡ false }
    ensures idle { conn.new.in_transaction ≡ false }
    ensures survives { Survives (state S.Store conn.old) (state S.Store conn.new) (λ _. ⊥) }
    ensures undone { HasCleanDisk (state S.Store conn.new) →
        IsUndone (state S.Store conn.old) (state S.Store conn.new) }
    ensures looked { IfOk result (λ rows. HasCleanDisk (state S.Store conn.new) →
        Looked S.Store sql.now conn.old rows.items) }
{
    let mut tx = conn.transaction();
    tx.query_all(sql, &[])
}

/// The rows of the table as the database shows them, a place and a body each, in no order that is
/// known.
pub(crate) fn stored_rows<S: Alter>(conn: &mut Connection<S>) -> Result<Vec<Stored>, Error>
    requires idle { conn.old.in_transaction ≡ false }
    requires ours { StaysOurs (state S.Store conn.old) }
    ensures idle { conn.new.in_transaction ≡ false }
    ensures ours { StaysOurs (state S.Store conn.new) }
    ensures survives { Survives (state S.Store conn.old) (state S.Store conn.new) (λ _. ⊥) }
    ensures kept { WhereTold (told_by (state S.Store conn.old)) (told_by (state S.Store conn.new))
        (λ before after. after ≡ before) }
    ensures shown { IfOk result (λ rows. IsTrue (state S.Store conn.new).is_open →
        IsPermutation (map read_row ((state S.Store conn.new).now.trees 0)) rows.items) }
{
    let _settled = conn.is_autocommit();
    look(
        conn,
        "SELECT place, body FROM pallwethig_rows_1 ORDER BY place",
    )
}

/// The numbers of the table's rows, in no order that is known.
pub(crate) fn stored_numbers<S: Alter>(conn: &mut Connection<S>) -> Result<Vec<Stored>, Error>
    requires { conn.old.in_transaction ≡ false }
    ensures idle { conn.new.in_transaction ≡ false }
    ensures survives { Survives (state S.Store conn.old) (state S.Store conn.new) (λ _. ⊥) }
    ensures kept { WhereTold (told_by (state S.Store conn.old)) (told_by (state S.Store conn.new))
        (λ before after. after ≡ before) }
    ensures schema { conn.old.schema ≡ kept_schema → IsTrue (state S.Store conn.new).is_open →
        conn.new.schema ≡ kept_schema }
    ensures apart { IfOk result (λ rows. conn.old.schema ≡ kept_schema →
        IsTrue (state S.Store conn.new).is_open → AreApart rows.items →
        AreApart ((state S.Store conn.new).now.trees 0)) }
{
    let _settled = conn.is_autocommit();
    look(conn, "SELECT rowid FROM pallwethig_rows_1 ORDER BY rowid")
}
