ghost use Rattle.std.specs.Prelude.{◌≡◌, ◌∷◌, [], map, IfOk};
ghost use Rattle.pl_base.specs.declared.origin.Crossing.TheVariants as crossing;
ghost use Rattle.pl_json.specs.declared.json.Json.TheVariants as json;
ghost use Rattle.pl_objects.specs.Origins.{crossing_object, origin_object};

use pl_base::{Crossing, FileKey, List, Memory, Origin, Place, SharedList, Text};
use pl_json::Json;
use pl_refusals::{file_object, number, place_object, push, push_file, text};
use std::alloc::Global;

/// Where a node or a key comes from: the place where it is written, and the borders of templates
/// that it crossed since, in order. Memory where memory is wanting.
pub fn origin_object(alloc: Global, origin: &Origin) -> Result<Json, Memory>
    ensures { IfOk result (λ made. made ≡ origin_object origin.now) }
{
    let mut members = List::new(alloc);
    members.push(number(alloc, "col", u64::from(origin.source.col))?)?;
    let crossings = crossings_array(alloc, &origin.crossings)?;
    push(alloc, &mut members, "crossings", crossings)?;
    members.push(number(alloc, "line", u64::from(origin.source.line))?)?;
    push_file(alloc, &mut members, &origin.source.file)?;
    Json::object(alloc, members)
}

/// Crossings as an array, in order.
fn crossings_array(alloc: Global, crossings: &SharedList<Crossing>) -> Result<Json, Memory>
    ensures { IfOk result (λ made. made ≡ json.Array (map crossing_object crossings.now)) }
{
    let crossings = crossings.to_vec(alloc)?;
    array_of(alloc, &crossings)
}

fn array_of(alloc: Global, crossings: &[&Crossing]) -> Result<Json, Memory>
    ensures { IfOk result (λ made. made ≡
        json.Array (map crossing_object (map (λ crossing. crossing.now) crossings.now))) }
{
    let mut items = List::new(alloc);
    for crossing in crossings {
        items.push(crossing_object(alloc, crossing)?)?;
    }
    Ok(Json::Array(items))
}

fn crossing_object(alloc: Global, crossing: &Crossing) -> Result<Json, Memory>
    ensures { IfOk result (λ made. made ≡ crossing_object crossing.now) }
{
    match crossing {
        Crossing::Extends(file) => extends(alloc, file),
        Crossing::Include(file, place) => include(alloc, file, place),
        Crossing::Argument(name, place) => argument(alloc, name, place),
        Crossing::Made => Json::text(alloc, "made"),
    }
}

fn extends(alloc: Global, file: &FileKey) -> Result<Json, Memory>
    ensures { IfOk result (λ made. made ≡ crossing_object (crossing.Extends file.now)) }
{
    let file = file_object(alloc, file)?;
    let mut members = List::new(alloc);
    push(alloc, &mut members, "extends", file)?;
    Json::object(alloc, members)
}

fn include(alloc: Global, file: &FileKey, place: &Place) -> Result<Json, Memory>
    ensures { IfOk result (λ made. made ≡ crossing_object (crossing.Include file.now place.now)) }
{
    let place = place_object(alloc, place)?;
    let file = file_object(alloc, file)?;
    let mut members = List::new(alloc);
    push(alloc, &mut members, "at", place)?;
    push(alloc, &mut members, "include", file)?;
    Json::object(alloc, members)
}

fn argument(alloc: Global, name: &Text, place: &Place) -> Result<Json, Memory>
    ensures { IfOk result (λ made. made ≡ crossing_object (crossing.Argument name.now place.now)) }
{
    let place = place_object(alloc, place)?;
    let mut members = List::new(alloc);
    members.push(text(alloc, "argument", name)?)?;
    push(alloc, &mut members, "at", place)?;
    Json::object(alloc, members)
}
