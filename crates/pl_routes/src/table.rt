ghost use Rattle.std.specs.Prelude.{◌≡◌, IfOk, OnOk};
ghost use Rattle.pl_routes.specs.Routes.{has_query, place_in, table, with_place};

use crate::place::{Place, path_of};
use matchit::Router;
use pl_base::Memory;
use std::alloc::Global;

/// The paths of the service, as `matchit` keeps them. A desk makes it once.
#[derive(Drop)]
pub struct Routes {
    rows: Router<Place>,
    ghost is_table: { rows ≡ table },
}

impl Routes {
    ghost use Rattle.pl_routes.specs.Routes.{place_in, table};

    /// The table of the service's paths.
    pub fn new(alloc: Global) -> Result<Routes, Memory> {
        let rows = rows(alloc)?;
        Ok(Routes { rows })
    }

    /// The path of the table that a target has, as `matchit` finds it; none where the target has a
    /// `?`. It takes no memory.
    pub fn place_of(&self, target: &str) -> Option<Place>
        ensures { result ≡ place_in table target.now }
    {
        place_in(&self.rows, target)
    }
}

/// A path more. That paths clash is no case of the table, which a test builds; it is answered as
/// want of memory, and then the path wasn't put in.
#[tactic(auto, unfolding(crate::specs::Routes::with_place))]
fn add(rows: &mut Router<Place>, place: Place) -> Result<(), Memory>
    ensures { OnOk result (rows.new ≡ with_place place rows.old) }
{
    match rows.insert(path_of(place), place) {
        Ok(()) => Ok(()),
        Err(_) => Err(Memory),
    }
}

/// The rows of the table.
#[tactic(auto, unfolding(crate::specs::Routes::table))]
fn rows(alloc: Global) -> Result<Router<Place>, Memory>
    ensures { IfOk result (λ rows. rows ≡ table) }
{
    let mut rows = Router::new(alloc);
    add(&mut rows, Place::File)?;
    add(&mut rows, Place::Pipeline)?;
    add(&mut rows, Place::Resource)?;
    add(&mut rows, Place::Principal)?;
    add(&mut rows, Place::Agent)?;
    add(&mut rows, Place::Texts)?;
    add(&mut rows, Place::Runs)?;
    add(&mut rows, Place::Run)?;
    add(&mut rows, Place::Cancel)?;
    add(&mut rows, Place::Decision)?;
    add(&mut rows, Place::Draw)?;
    add(&mut rows, Place::Claim)?;
    add(&mut rows, Place::Why)?;
    add(&mut rows, Place::Report)?;
    add(&mut rows, Place::Shutdown)?;
    Ok(rows)
}

/// The path that a target has in the rows.
fn place_in(rows: &Router<Place>, target: &str) -> Option<Place>
    ensures { result ≡ place_in rows.now target.now }
{
    if has_query(target.as_bytes()) {
        return None;
    }
    match rows.at(target) {
        Ok(found) => Some(*found.value),
        Err(_) => None,
    }
}

/// Whether a target has a query (RFC 3986, section 3.4).
fn has_query(target: &[u8]) -> bool
    ensures { result ≡ has_query target.now }
{
    target.iter().any(|byte| *byte == b'?')
}
