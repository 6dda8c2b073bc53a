ghost use Rattle.std.specs.Prelude.{◌≡◌, string_bytes, IfOk};
ghost use Rattle.pl_unopened.specs.Unopened.{torn_line};

use pl_base::Memory;
use std::alloc::Global;

/// The line of a torn row.
pub(crate) fn torn_line(alloc: Global, table: u8, key: &[u8]) -> Result<String, Memory>
    ensures { IfOk result (λ line. string_bytes line ≡ torn_line table key.now) }
{
    let digits = hex::encode(alloc, key)?;
    Ok(format!(in alloc; "torn {table} {digits}\n")?)
}
