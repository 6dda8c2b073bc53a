ghost use Rattle.std.specs.Prelude.{◌≡◌, ◌≢◌, [], false, Some, IfErr, IfOk, IfSome, IsErrOf};
ghost use Rattle.std.specs.Prelude.{IsTrue, OnErr, OnOk};
ghost use Rattle.sqlite.specs.Tree.{Trees};
ghost use Rattle.sqlite.specs.State.{HasCleanDisk, Survives};
ghost use Rattle.sqlite.specs.Held.{state};
ghost use Rattle.pl_base.specs.Counts.{one_more};
ghost use Rattle.pl_keeper.specs.Keeping.{all_changed, IsInOrder, WhereTold};
ghost use Rattle.pl_sqlkeeper.specs.Kept.{rows_in, told_by, TellsNoRows};
ghost use Rattle.pl_sqlkeeper.specs.Schema.{blank_schema, kept_schema};
ghost use Rattle.pl_store.specs.Foreign.{foreign_cause};
ghost use Rattle.pl_store.specs.Refusals.{is_foreign, refusal_of};
ghost use Rattle.pl_store.specs.Stores.{database_of, faults_of, told_of, InDatabase, IsOver};
ghost use Rattle.pl_store.specs.Stores.{NeverFails};

use crate::foreign::foreign_cause;
use crate::refusal::{Refusal, cause_of};
use pl_base::{Change, List, Row};
use pl_keeper::{Keeper, KeeperFault, MemKeeper};
use pl_sqlkeeper::{SqlKeeper, Unopened};
use sqlite::{Alter, Connection};
use sqlite_schema::schema::Schema;
use std::alloc::Global;

/// Where the program keeps its rows.
pub enum RowStore<S: Alter> {
    /// In memory, which always tells them.
    Memory(MemKeeper),
    /// In a database, which tells them while it is open.
    Database(SqlKeeper<S>),
}

// It is written out, so that a caller doesn't prove again how each part is dropped.
impl<S: Alter + Drop> Drop for RowStore<S> {
    fn drop(self) {
        match self {
            RowStore::Memory(_keeper) => {}
            RowStore::Database(_keeper) => {}
        }
    }
}

impl<S: Alter> RowStore<S> {
    /// No rows yet, in memory, where no call fails but for want of memory. It takes no memory.
    pub fn in_memory(alloc: Global) -> RowStore<S>
        ensures rows { told_of S.Store result ≡ Some [] }
        ensures quiet { faults_of result ≡ 0 }
        ensures sure { NeverFails result }
    {
        RowStore::Memory(MemKeeper::new(List::new(alloc), List::new(alloc)))
    }

    /// The keeper of the database, where the rows are in one.
    pub fn into_database(self) -> Option<SqlKeeper<S>>
        ensures { result ≡ database_of self }
    {
        match self {
            RowStore::Memory(_keeper) => None,
            RowStore::Database(keeper) => Some(keeper),
        }
    }

    /// The rows in a database: one that holds nothing, where it makes its table, or one that holds
    /// just this table. Every other one is refused, and handed back as it was.
    ///
    /// A crash leaves what it could leave before, or a database without rows where it held nothing.
    pub fn adopt(connection: Connection<S>) -> Result<RowStore<S>, (Refusal, Connection<S>)>
        ensures quiet { IfOk result (λ store. faults_of store ≡ 0) }
        ensures crash { IfOk result (IsOver (λ keeper. Survives (state S.Store connection)
            (state S.Store keeper) (λ db. rows_in db ≡ []))) }
        ensures crash_refused { IfErr result (λ refused. Survives (state S.Store connection)
            (state S.Store refused.1) (λ db. rows_in db ≡ [])) }
        ensures blank { connection.schema ≡ blank_schema →
            IfOk result (IsOver (λ keeper. TellsNoRows (state S.Store keeper))) }
        ensures kept { connection.schema ≢ blank_schema → IfOk result (IsOver (λ keeper.
            WhereTold (told_by (state S.Store connection)) (told_by (state S.Store keeper))
            (λ before after. after ≡ before))) }
        ensures kept_refused { connection.schema ≢ blank_schema → IfErr result (λ refused.
            WhereTold (told_by (state S.Store connection)) (told_by (state S.Store refused.1))
            (λ before after. after ≡ before)) }
        ensures untouched { connection.schema ≢ blank_schema → connection.schema ≢ kept_schema →
            IfErr result (λ refused. refused.1 ≡ connection) }
        ensures ours { connection.schema ≡ kept_schema →
            IfErr result (λ refused. is_foreign refused.0 ≡ false) }
        ensures foreign { IfErr result (λ refused. IsTrue (is_foreign refused.0) →
            refused.0 ≡ foreign_cause refused.1.schema) }
    {
        match SqlKeeper::adopt_or_why(connection) {
            Ok(keeper) => Ok(RowStore::Database(keeper)),
            Err((why, connection)) => {
                let refusal = refusal_of(why, connection.schema());
                Err((refusal, connection))
            }
        }
    }
}

/// Why a database wasn't taken over, as a refusal.
fn refusal_of(why: Unopened, schema: &Schema) -> Refusal
    ensures { result ≡ refusal_of why schema.now }
{
    match why {
        Unopened::Database(error) => cause_of(error),
        Unopened::Other => foreign_cause(schema),
    }
}

impl<S: Alter> Keeper for RowStore<S> {
    ghost held = { λ store. told_of S.Store store };

    ghost faults = { λ store. faults_of store };

    /// In a database all changes are made in one transaction: a crash leaves what it could leave
    /// before the call, or the rows with all changes, and after Ok the latter alone.
    fn apply(&mut self, alloc: Global, changes: &List<Change>) -> Result<(), KeeperFault>
        ensures applied { OnOk result (WhereTold (told_of S.Store self.old)
            (told_of S.Store self.new) (λ before after. after ≡ all_changed changes.now before)) }
        ensures kept { OnErr result (WhereTold (told_of S.Store self.old)
            (told_of S.Store self.new) (λ before after. after ≡ before)) }
        ensures quiet { OnOk result (faults_of self.new ≡ faults_of self.old) }
        ensures failed { IsErrOf result KeeperFault.Failed →
            faults_of self.new ≡ one_more (faults_of self.old) }
        ensures memory { IsErrOf result KeeperFault.Memory →
            faults_of self.new ≡ faults_of self.old }
        ensures sure { NeverFails self.old →
            ¬ IsErrOf result KeeperFault.Failed × NeverFails self.new }
        ensures tells { OnOk result (InDatabase self.old self.new (λ old new.
            HasCleanDisk (state S.Store new) → IsTrue (state S.Store new).is_open)) }
        ensures crash { InDatabase self.old self.new (λ old new.
            Survives (state S.Store old) (state S.Store new)
            (λ db. rows_in db ≡ all_changed changes.now (rows_in (state S.Store old).now.trees))) }
        ensures lasting { OnOk result (InDatabase self.old self.new (λ old new.
            HasCleanDisk (state S.Store new) → (db : Trees) → (state S.Store new).may_leave db →
            rows_in db ≡ all_changed changes.now (rows_in (state S.Store old).now.trees))) }
    {
        match self {
            RowStore::Memory(keeper) => keeper.apply(alloc, changes),
            RowStore::Database(keeper) => keeper.apply(alloc, changes),
        }
    }

    /// A crash leaves nothing else than before.
    fn rows(&mut self, alloc: Global) -> Result<List<Row>, KeeperFault>
        ensures told { IfOk result (λ rows. IfSome (told_of S.Store self.new)
            (λ held. rows ≡ held)) }
        ensures ordered { IfOk result IsInOrder }
        ensures kept { WhereTold (told_of S.Store self.old) (told_of S.Store self.new)
            (λ before after. after ≡ before) }
        ensures quiet { OnOk result (faults_of self.new ≡ faults_of self.old) }
        ensures failed { IsErrOf result KeeperFault.Failed →
            faults_of self.new ≡ one_more (faults_of self.old) }
        ensures memory { IsErrOf result KeeperFault.Memory →
            faults_of self.new ≡ faults_of self.old }
        ensures sure { NeverFails self.old →
            ¬ IsErrOf result KeeperFault.Failed × NeverFails self.new }
        ensures crash { InDatabase self.old self.new (λ old new.
            Survives (state S.Store old) (state S.Store new) (λ _. ⊥)) }
    {
        match self {
            RowStore::Memory(keeper) => keeper.rows(alloc),
            RowStore::Database(keeper) => keeper.rows(alloc),
        }
    }

    fn faults(&self) -> u64 {
        match self {
            RowStore::Memory(keeper) => keeper.faults(),
            RowStore::Database(keeper) => keeper.faults(),
        }
    }
}
