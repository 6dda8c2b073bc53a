//! Rows as two values, one that the key is and one that the body is.

ghost use Rattle.std.specs.Prelude.{◌≡◌, IfOk, IsErrOf};
ghost use Rattle.pl_fields.specs.Reading.{Is};
ghost use Rattle.pl_keeper.specs.Parts.{ArePartsOf};

use pl_base::{Memory, Row};
use pl_fields::{DecodeFault, Field, Written, decoded, encoded};
use std::alloc::Global;

/// The row of a table with this key and this body, each written as its type is. A row of a record
/// that isn't at hand as one is so written of what it would hold, by the record's own table. Memory
/// alone is an error.
pub fn row_from<K: Written, B: Written>(
    alloc: Global,
    table: u8,
    key: &K,
    body: &B,
) -> Result<Row, Memory>
    requires key { K.short key.now }
    requires body { B.short body.now }
    ensures table { IfOk result (λ row. row.table ≡ table) }
    ensures key { IfOk result (λ row. Is K.spelled K.fits row.key key.now) }
    ensures body { IfOk result (λ row. Is B.spelled B.fits row.body body.now) }
{
    let key = encoded(alloc, key)?;
    let body = encoded(alloc, body)?;
    Ok(Row { table, key, body })
}

/// The values that a row's key and its body are.
pub(crate) fn parts_of<K: Field, B: Field>(alloc: Global, row: &Row) -> Result<(K, B), DecodeFault>
    ensures ok { IfOk result (ArePartsOf K.spelled K.fits B.spelled B.fits row.now) }
    ensures torn { IsErrOf result DecodeFault.Torn → (parts : K × B) →
        ¬ ArePartsOf K.spelled K.fits B.spelled B.fits row.now parts }
{
    let key = decoded(alloc, row.key.as_slice())?;
    let body = decoded(alloc, row.body.as_slice())?;
    Ok((key, body))
}
