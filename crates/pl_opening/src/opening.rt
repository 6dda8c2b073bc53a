ghost use Rattle.std.specs.Prelude.{◌≡◌, None, IfErr, IfOk};
ghost use Rattle.pl_keeper.specs.Keeping.{IsInOrder};
ghost use Rattle.pl_opening.specs.Opening.{IsOpenCore, IsTornBy};
ghost use Rattle.pl_opening.specs.declared.fault.RowsFault.TheVariants.{Torn};
ghost use Rattle.pl_opened_laws.specs.Below.pl_seeing.specs.Seeing.{AreSeen};
ghost use Rattle.pl_torn.specs.Torn.{torn as first_torn};

use crate::fault::RowsFault;
use crate::numbers::{change_of, numbers_of};
use pl_base::{Bytes, Digest, Memory, Row};
use pl_core::Core;
use pl_opened_laws::{facts_of, opened_laws, seeing_laws, seen_rows};
use pl_torn::{Seen, meta_told, torn};
use std::alloc::Global;

/// A service that goes on from kept rows, which are in order of table and key, with the digest of
/// its admin's token. Each row is read once, and sources that runs share are compiled once; these
/// runs share the plan.
///
/// Torn is the first row at which the rows don't stand together, by the rules that `torn` lists; it
/// comes exactly where there is one. Memory where memory is wanting.
pub fn open(alloc: Global, admin: Digest, rows: &[Row]) -> Result<Core, RowsFault>
    requires order { IsInOrder rows.now }
    ensures opened { IfOk result (IsOpenCore admin rows.now) }
    ensures torn { IfErr result (IsTornBy admin rows.now) }
{
    seeing_laws();
    let all = seen_rows(alloc, rows)?;
    if let Some(one) = torn(alloc, &admin, all.as_slice())? {
        return Err(torn_at(alloc, one.row)?);
    }
    Ok(core_of(alloc, admin, rows, all)?)
}

/// The service that whole rows open, of what was seen of them.
fn core_of(alloc: Global, admin: Digest, rows: &[Row], all: Vec<Seen<'_>>) -> Result<Core, Memory>
    requires order { IsInOrder rows.now }
    requires seen { AreSeen rows.now all.items }
    requires whole { first_torn admin all.items ≡ None }
    ensures { IfOk result (IsOpenCore admin rows.now) }
{
    seeing_laws();
    opened_laws();
    let _count = rows.len();
    let told = meta_told(all.as_slice());
    let change = change_of(told);
    let numbers = numbers_of(told);
    let facts = facts_of(alloc, all)?;
    Core::opened(alloc, admin, numbers, change, facts)
}

/// The fault that tells a row.
fn torn_at(alloc: Global, row: &Row) -> Result<RowsFault, Memory>
    ensures { IfOk result (λ fault. fault ≡ Torn row.now.table row.now.key row.now.body) }
{
    let key = Bytes::from_slice(alloc, row.key.as_slice())?;
    let bytes = Bytes::from_slice(alloc, row.body.as_slice())?;
    Ok(RowsFault::Torn {
        table: row.table,
        key,
        bytes,
    })
}
