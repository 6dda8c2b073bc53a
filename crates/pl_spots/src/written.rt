//! A row of values at hand.

ghost use Rattle.std.specs.Prelude.{◌≡◌, Some, IfOk};

use pl_base::{Memory, Row};
use pl_keeper::row_from;
use pl_short::Short;
use std::alloc::Global;

/// The row of a table with this key and this body. Memory also where one of them can't be written.
pub(crate) fn written<K: Short, B: Short>(
    alloc: Global,
    table: u8,
    key: &K,
    body: &B,
) -> Result<Option<Row>, Memory>
    ensures row { IfOk result (λ row. row ≡ Some (record {
      table = table;
      key = K.spelled key.now;
      body = B.spelled body.now;
    })) }
    ensures key_fits { IfOk result (λ _. K.fits key.now) }
    ensures body_fits { IfOk result (λ _. B.fits body.now) }
{
    if key.is_short() && body.is_short() {
        Ok(Some(row_from(alloc, table, key, body)?))
    } else {
        Err(Memory)
    }
}
