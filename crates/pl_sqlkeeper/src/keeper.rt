ghost use Rattle.std.specs.Prelude.{◌≡◌, ◌≢◌, [], false, IfErr, IfOk, IfSome, IsErrOf, IsTrue};
ghost use Rattle.std.specs.Prelude.{OnErr};
ghost use Rattle.std.specs.Prelude.{OnOk};
ghost use Rattle.sqlite.specs.Tree.{Trees};
ghost use Rattle.sqlite.specs.State.{HasCleanDisk, Survives};
ghost use Rattle.sqlite.specs.Held.{state};
ghost use Rattle.pl_base.specs.Counts.{one_more};
ghost use Rattle.pl_keeper.specs.Keeping.{all_changed, IsInOrder, WhereTold};
ghost use Rattle.pl_sqlkeeper.specs.Kept.{rows_in, told_by, TellsNoRows};
ghost use Rattle.pl_sqlkeeper.specs.Schema.{blank_schema, kept_schema};
ghost use Rattle.pl_sqlkeeper.specs.declared.opening.Unopened.TheVariants.{Other};

use crate::changes::keep_all;
use crate::faults::told;
use crate::opening::{Unopened, prepare};
use crate::rows::read_rows;
use pl_base::{Change, List, Row};
use pl_keeper::{Keeper, KeeperFault};
use sqlite::{Alter, Connection};
use std::alloc::Global;
use std::marker::Model;

/// Rows in a table of a SQLite database, which it tells while the database is open.
///
/// A refusal of the database that is no want of memory counts as a fault. After one that shut the
/// database, as a failed sync does, it tells no rows, and every later call is a counted fault.
pub struct SqlKeeper<S: Alter> {
    conn: Connection<S>,
    faults: u64,
}

impl<S: Alter> Model for SqlKeeper<S> {
    ghost use Rattle.pl_sqlkeeper.specs.Keeper.{keeping_code, IsIdle, Keeping};

    ghost Value = { Keeping S };

    ghost coded = { keeping_code S.code };

    ghost view = { λ keeper. record { conn = keeper.conn; faults = keeper.faults } };

    ghost invariant = { λ keeper. IsIdle S.Store keeper.conn };
}

// It is written out, so that a caller doesn't prove again how each part is dropped.
impl<S: Alter + Drop> Drop for SqlKeeper<S> {
    fn drop(self) {
        let SqlKeeper { conn: _, faults: _ } = self;
    }
}

impl<S: Alter> SqlKeeper<S> {
    /// A keeper over a database: one that holds nothing, where it makes its table, or one that
    /// holds just this table. Every other database is refused, and left as it was. It tells why it
    /// refused, and hands the connection back. `Other` is the reason only of another database, or
    /// of one that was shut while the table was made.
    ///
    /// A crash leaves what it could leave before, or a database without rows where it held nothing.
    /// A keeper over such a database tells no rows at first. The rows of a database that holds
    /// something are as before.
    pub fn adopt_or_why(
        connection: Connection<S>,
    ) -> Result<SqlKeeper<S>, (Unopened, Connection<S>)>
        ensures quiet { IfOk result (λ keeper. keeper.faults ≡ 0) }
        ensures crash { IfOk result (λ keeper. Survives (state S.Store connection)
            (state S.Store keeper.conn) (λ db. rows_in db ≡ [])) }
        ensures crash_refused { IfErr result (λ refused. Survives (state S.Store connection)
            (state S.Store refused.1) (λ db. rows_in db ≡ [])) }
        ensures blank { connection.schema ≡ blank_schema →
            IfOk result (λ keeper. TellsNoRows (state S.Store keeper.conn)) }
        ensures kept { connection.schema ≢ blank_schema → IfOk result (λ keeper.
            WhereTold (told_by (state S.Store connection)) (told_by (state S.Store keeper.conn))
            (λ before after. after ≡ before)) }
        ensures kept_refused { connection.schema ≢ blank_schema → IfErr result (λ refused.
            WhereTold (told_by (state S.Store connection)) (told_by (state S.Store refused.1))
            (λ before after. after ≡ before)) }
        ensures untouched { connection.schema ≢ blank_schema → connection.schema ≢ kept_schema →
            IfErr result (λ refused. refused.1 ≡ connection) }
        ensures other { connection.schema ≡ kept_schema →
            IfErr result (λ refused. refused.0 ≢ Other) }
        ensures other_blank { connection.schema ≡ blank_schema → IfErr result (λ refused.
            refused.0 ≡ Other → ¬ IsTrue (state S.Store refused.1).is_open) }
    {
        let mut conn = connection;
        match prepare(&mut conn) {
            Ok(()) => Ok(SqlKeeper { conn, faults: 0 }),
            Err(why) => Err((why, conn)),
        }
    }

    /// As `adopt_or_why`, with a keeper's fault for the reason: Memory where memory was wanting,
    /// and else Failed.
    pub fn adopt(connection: Connection<S>) -> Result<SqlKeeper<S>, (KeeperFault, Connection<S>)>
        ensures quiet { IfOk result (λ keeper. keeper.faults ≡ 0) }
        ensures crash { IfOk result (λ keeper. Survives (state S.Store connection)
            (state S.Store keeper.conn) (λ db. rows_in db ≡ [])) }
        ensures crash_refused { IfErr result (λ refused. Survives (state S.Store connection)
            (state S.Store refused.1) (λ db. rows_in db ≡ [])) }
        ensures blank { connection.schema ≡ blank_schema →
            IfOk result (λ keeper. TellsNoRows (state S.Store keeper.conn)) }
        ensures kept { connection.schema ≢ blank_schema → IfOk result (λ keeper.
            WhereTold (told_by (state S.Store connection)) (told_by (state S.Store keeper.conn))
            (λ before after. after ≡ before)) }
        ensures kept_refused { connection.schema ≢ blank_schema → IfErr result (λ refused.
            WhereTold (told_by (state S.Store connection)) (told_by (state S.Store refused.1))
            (λ before after. after ≡ before)) }
        ensures untouched { connection.schema ≢ blank_schema → connection.schema ≢ kept_schema →
            IfErr result (λ refused. refused.1 ≡ connection) }
    {
        match SqlKeeper::adopt_or_why(connection) {
            Ok(keeper) => Ok(keeper),
            Err((why, conn)) => Err((why.fault(), conn)),
        }
    }

    /// Hands the connection back.
    pub fn into_connection(self) -> Connection<S>
        ensures same { result ≡ self.conn }
        ensures idle { result.in_transaction ≡ false }
    {
        let SqlKeeper { conn, faults: _ } = self;
        conn
    }
}

impl<S: Alter> Keeper for SqlKeeper<S> {
    ghost held = { λ keeper. told_by (state S.Store keeper.conn) };

    ghost faults = { λ keeper. keeper.faults };

    /// All changes are made in one transaction. A crash leaves what it could leave before the call,
    /// or the rows with all changes, and after Ok the latter alone.
    fn apply(&mut self, alloc: Global, changes: &List<Change>) -> Result<(), KeeperFault>
        ensures applied { OnOk result (WhereTold (told_by (state S.Store self.old.conn))
            (told_by (state S.Store self.new.conn))
            (λ before after. after ≡ all_changed changes.now before)) }
        ensures kept { OnErr result (WhereTold (told_by (state S.Store self.old.conn))
            (told_by (state S.Store self.new.conn)) (λ before after. after ≡ before)) }
        ensures quiet { OnOk result (self.new.faults ≡ self.old.faults) }
        ensures failed { IsErrOf result KeeperFault.Failed →
            self.new.faults ≡ one_more self.old.faults }
        ensures memory { IsErrOf result KeeperFault.Memory → self.new.faults ≡ self.old.faults }
        ensures tells { OnOk result (HasCleanDisk (state S.Store self.new.conn) →
            IsTrue (state S.Store self.new.conn).is_open) }
        ensures crash { Survives (state S.Store self.old.conn) (state S.Store self.new.conn)
            (λ db. rows_in db ≡
            all_changed changes.now (rows_in (state S.Store self.old.conn).now.trees)) }
        ensures lasting { OnOk result (HasCleanDisk (state S.Store self.new.conn) →
            (db : Trees) → (state S.Store self.new.conn).may_leave db → rows_in db ≡
            all_changed changes.now (rows_in (state S.Store self.old.conn).now.trees)) }
    {
        let made = keep_all(&mut self.conn, alloc, changes);
        told(&mut self.faults, made)
    }

    /// A crash leaves nothing else than before.
    fn rows(&mut self, alloc: Global) -> Result<List<Row>, KeeperFault>
        ensures told { IfOk result (λ rows. IfSome (told_by (state S.Store self.new.conn))
            (λ held. rows ≡ held)) }
        ensures ordered { IfOk result IsInOrder }
        ensures kept { WhereTold (told_by (state S.Store self.old.conn))
            (told_by (state S.Store self.new.conn)) (λ before after. after ≡ before) }
        ensures quiet { OnOk result (self.new.faults ≡ self.old.faults) }
        ensures failed { IsErrOf result KeeperFault.Failed →
            self.new.faults ≡ one_more self.old.faults }
        ensures memory { IsErrOf result KeeperFault.Memory → self.new.faults ≡ self.old.faults }
        ensures crash { Survives (state S.Store self.old.conn) (state S.Store self.new.conn)
            (λ _. ⊥) }
    {
        let read = read_rows(&mut self.conn, alloc);
        told(&mut self.faults, read)
    }

    fn faults(&self) -> u64 {
        self.faults
    }
}
