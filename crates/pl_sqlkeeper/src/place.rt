//! A row's table and key as one run of bytes.

ghost use Rattle.std.specs.Prelude.{◌≡◌, ◌∷◌, IfOk};

use std::alloc::{AllocError, Global};

/// The table's byte, and behind it the key. By these bytes rows stand in order of table and key.
pub(crate) fn place_of(alloc: Global, table: u8, key: &[u8]) -> Result<Vec<u8>, AllocError>
    ensures { IfOk result (λ place. place.items ≡ table ∷ key.now) }
{
    let mut place = Vec::with_capacity(alloc, key.len() + 1)?;
    place.push(table)?;
    place.extend_from_slice(key)?;
    Ok(place)
}
