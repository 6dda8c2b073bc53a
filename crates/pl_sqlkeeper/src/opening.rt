//! Databases that a keeper takes over.

ghost use Rattle.std.specs.Prelude.{◌≡◌, ◌≢◌, [], false, IfErr, IsTrue, OnOk};
ghost use Rattle.sqlite.specs.State.{Survives};
ghost use Rattle.sqlite.specs.Held.{state};
ghost use Rattle.pl_keeper.specs.Keeping.{WhereTold};
ghost use Rattle.pl_sqlkeeper.specs.Faults.{fault_why};
ghost use Rattle.pl_sqlkeeper.specs.Kept.{rows_in, told_by, AreApart, StaysOurs, TellsNoRows};
ghost use Rattle.pl_sqlkeeper.specs.Schema.{blank_schema, kept_schema};
ghost use Rattle.pl_sqlkeeper.specs.declared.opening.Unopened.TheVariants.{Database as Refused};
ghost use Rattle.pl_sqlkeeper.specs.declared.opening.Unopened.TheVariants.{Other};

use crate::looking::stored_numbers;
use crate::numbers::are_numbered;
use crate::rows::DAMAGED;
use crate::schema::{is_blank, is_ours};
use pl_keeper::KeeperFault;
use sqlite::{Alter, Connection, Error, ErrorCode, Row as Stored};
use std::fmt;

/// Why a database wasn't taken over.
#[derive(Clone, Copy, Debug, PartialEq, Eq)]
pub enum Unopened {
    /// The database refused.
    Database(Error),
    /// The database is another program's, or of another version: it holds anything but the table
    /// that this crate makes.
    Other,
}

impl Unopened {
    /// As a keeper's fault: Memory where memory was wanting, and else Failed.
    pub fn fault(self) -> KeeperFault
        ensures { result ≡ fault_why self }
    {
        match self {
            Unopened::Database(Error::SqliteFailure(ErrorCode::OutOfMemory)) => KeeperFault::Memory,
            _ => KeeperFault::Failed,
        }
    }
}

impl fmt::Display for Unopened {
    fn fmt<W: fmt::Write>(&self, f: &mut fmt::Formatter<W>) -> fmt::Result {
        match self {
            Unopened::Database(error) => write!(f, "{error}"),
            Unopened::Other => f.write_str("the database holds other tables than the service's"),
        }
    }
}

impl From<Error> for Unopened {
    ghost from_gives = { λ error why. why ≡ Refused error };

    fn from(error: Error) -> Unopened {
        Unopened::Database(error)
    }
}

/// Makes the table, in a database that lists nothing.
fn make_table<S: Alter>(conn: &mut Connection<S>) -> Result<usize, Error>
    requires { conn.old.schema ≡ blank_schema }
    ensures crash { Survives (state S.Store conn.old) (state S.Store conn.new)
        (λ db. rows_in db ≡ []) }
    ensures blank { OnOk result (TellsNoRows (state S.Store conn.new)) }
    ensures made { OnOk result (IsTrue (state S.Store conn.new).is_open →
        conn.new.schema ≡ kept_schema) }
{
    conn.execute(
        "CREATE TABLE pallwethig_rows_1 (place BLOB NOT NULL PRIMARY KEY, \
        body BLOB NOT NULL) STRICT",
        &[],
    )
}

/// Refuses a database that isn't ours, and a connection inside a transaction.
fn judged<S: Alter>(conn: &Connection<S>) -> Result<(), Unopened>
    ensures idle { OnOk result (conn.now.in_transaction ≡ false) }
    ensures schema { OnOk result (conn.now.schema ≡ kept_schema) }
    ensures other { IfErr result (λ why. why ≡ Other → conn.now.schema ≢ kept_schema) }
{
    if !conn.is_autocommit() {
        return Err(Unopened::Database(Error::SqliteFailure(ErrorCode::TransactionState)));
    }
    if is_ours(conn.schema()) {
        Ok(())
    } else {
        Err(Unopened::Other)
    }
}

/// Refuses rows of which two have one number.
fn tested(stored: &[Stored]) -> Result<(), Unopened>
    ensures apart { OnOk result (AreApart stored.now) }
    ensures other { IfErr result (λ why. why ≢ Other) }
{
    if are_numbered(stored) {
        Ok(())
    } else {
        Err(Unopened::Database(DAMAGED))
    }
}

/// Refuses a table of which two rows have one number.
fn numbered<S: Alter>(conn: &mut Connection<S>) -> Result<(), Unopened>
    requires idle { conn.old.in_transaction ≡ false }
    requires schema { conn.old.schema ≡ kept_schema }
    ensures idle { conn.new.in_transaction ≡ false }
    ensures survives { Survives (state S.Store conn.old) (state S.Store conn.new) (λ _. ⊥) }
    ensures kept { WhereTold (told_by (state S.Store conn.old)) (told_by (state S.Store conn.new))
        (λ before after. after ≡ before) }
    ensures ours { OnOk result (StaysOurs (state S.Store conn.new)) }
    ensures other { IfErr result (λ why. why ≢ Other) }
{
    let numbers = stored_numbers(conn)?;
    tested(numbers.as_slice())
}

/// Takes over a database that has the table, or refuses it.
fn judge<S: Alter>(conn: &mut Connection<S>) -> Result<(), Unopened>
    ensures idle { OnOk result (conn.new.in_transaction ≡ false) }
    ensures survives { Survives (state S.Store conn.old) (state S.Store conn.new) (λ _. ⊥) }
    ensures kept { WhereTold (told_by (state S.Store conn.old)) (told_by (state S.Store conn.new))
        (λ before after. after ≡ before) }
    ensures ours { OnOk result (StaysOurs (state S.Store conn.new)) }
    ensures was_ours { OnOk result (conn.old.schema ≡ kept_schema) }
    ensures untouched { conn.old.schema ≢ kept_schema → conn.new ≡ conn.old }
    ensures other { IfErr result (λ why. why ≡ Other → conn.old.schema ≢ kept_schema) }
{
    judged(conn)?;
    numbered(conn)
}

/// Makes the table, and takes the database over.
fn fill<S: Alter>(conn: &mut Connection<S>) -> Result<(), Unopened>
    requires { conn.old.schema ≡ blank_schema }
    ensures idle { OnOk result (conn.new.in_transaction ≡ false) }
    ensures ours { OnOk result (StaysOurs (state S.Store conn.new)) }
    ensures crash { Survives (state S.Store conn.old) (state S.Store conn.new)
        (λ db. rows_in db ≡ []) }
    ensures blank { OnOk result (TellsNoRows (state S.Store conn.new)) }
    ensures other { IfErr result (λ why. why ≡ Other → ¬ IsTrue (state S.Store conn.new).is_open) }
{
    make_table(conn)?;
    judge(conn)
}

/// Makes the table where the database holds nothing yet. Then the database is ours, or refused.
pub(crate) fn prepare<S: Alter>(conn: &mut Connection<S>) -> Result<(), Unopened>
    ensures idle { OnOk result (conn.new.in_transaction ≡ false) }
    ensures ours { OnOk result (StaysOurs (state S.Store conn.new)) }
    ensures crash { Survives (state S.Store conn.old) (state S.Store conn.new)
        (λ db. rows_in db ≡ []) }
    ensures blank { conn.old.schema ≡ blank_schema →
        OnOk result (TellsNoRows (state S.Store conn.new)) }
    ensures kept { conn.old.schema ≢ blank_schema →
        WhereTold (told_by (state S.Store conn.old)) (told_by (state S.Store conn.new))
        (λ before after. after ≡ before) }
    ensures untouched { conn.old.schema ≢ blank_schema → conn.old.schema ≢ kept_schema →
        conn.new ≡ conn.old }
    ensures other { IfErr result (λ why. why ≡ Other → conn.old.schema ≢ kept_schema) }
    ensures other_blank { conn.old.schema ≡ blank_schema →
        IfErr result (λ why. why ≡ Other → ¬ IsTrue (state S.Store conn.new).is_open) }
{
    if is_blank(conn.schema()) {
        return fill(conn);
    }
    judge(conn)
}
