//! Members of objects, and the objects of files and places. Memory where memory is wanting.

ghost use Rattle.std.specs.Prelude.{◌≡◌, ◌++◌, ◌∷◌, [], codes, map, IfOk, OnOk};
ghost use Rattle.pl_json.specs.Members.{member};
ghost use Rattle.pl_json.specs.declared.json.Json.TheVariants as json;
ghost use Rattle.pl_refusals.specs.Rows.{file_members, file_object, number, place_object, resource};
ghost use Rattle.pl_refusals.specs.Rows.{stage_at, stage_object, text, text_or_null, texts};

use crate::names::kind_name;
use pl_base::{ExactCopy, FileKey, List, Memory, Place, ResourceKey, Text};
use pl_json::{Json, Member};
use std::alloc::Global;

/// A member that is a copy of a text, whose characters it shares where they are shared.
pub fn text(alloc: Global, name: &str, told: &Text) -> Result<Member<Json>, Memory>
    ensures { IfOk result (λ made. made ≡ text name.now told.now) }
{
    Member::new(alloc, name, Json::Text(told.copy(alloc)?))
}

/// A member that is a text of these characters.
pub fn word(alloc: Global, name: &str, told: &str) -> Result<Member<Json>, Memory>
    ensures { IfOk result (λ made. made ≡ text name.now told.now) }
{
    Member::new(alloc, name, Json::text(alloc, told)?)
}

/// A member that is a number.
pub fn number(alloc: Global, name: &str, told: u64) -> Result<Member<Json>, Memory>
    ensures { IfOk result (λ made. made ≡ number name.now told) }
{
    Member::new(alloc, name, Json::Number(told))
}

/// Puts a member of this name behind the last one.
pub fn push(
    alloc: Global,
    members: &mut List<Member<Json>>,
    name: &str,
    value: Json,
) -> Result<(), Memory>
    ensures { OnOk result (members.new ≡ members.old ++ member name.now value ∷ []) }
{
    let added = Member::new(alloc, name, value)?;
    members.push(added)?;
    Ok(())
}

/// Texts as an array, in order.
pub fn texts(alloc: Global, told: &List<Text>) -> Result<Json, Memory>
    ensures { IfOk result (λ made. made ≡ texts told.now) }
{
    let mut items = Vec::with_capacity(alloc, told.len())?;
    for text in told.as_slice() {
        items.push(Json::Text(text.copy(alloc)?))?;
    }
    Ok(Json::Array(List::from_vec(items)))
}

/// A text, or null where there is none.
pub fn text_or_null(alloc: Global, told: &Option<Text>) -> Result<Json, Memory>
    ensures { IfOk result (λ made. made ≡ text_or_null told.now) }
{
    match told {
        Some(told) => Ok(Json::Text(told.copy(alloc)?)),
        None => Ok(Json::Null),
    }
}

/// One member alone.
pub(crate) fn one(alloc: Global, first: Member<Json>) -> Result<List<Member<Json>>, Memory>
    ensures { IfOk result (λ made. made ≡ first ∷ []) }
{
    let mut members = List::new(alloc);
    members.push(first)?;
    Ok(members)
}

/// Two members.
pub(crate) fn two(
    alloc: Global,
    first: Member<Json>,
    second: Member<Json>,
) -> Result<List<Member<Json>>, Memory>
    ensures { IfOk result (λ made. made ≡ first ∷ second ∷ []) }
{
    let mut members = one(alloc, first)?;
    members.push(second)?;
    Ok(members)
}

/// Three members.
pub(crate) fn three(
    alloc: Global,
    first: Member<Json>,
    second: Member<Json>,
    third: Member<Json>,
) -> Result<List<Member<Json>>, Memory>
    ensures { IfOk result (λ made. made ≡ first ∷ second ∷ third ∷ []) }
{
    let mut members = two(alloc, first, second)?;
    members.push(third)?;
    Ok(members)
}

/// A resource's kind and its name.
pub(crate) fn resource(alloc: Global, told: &ResourceKey) -> Result<List<Member<Json>>, Memory>
    ensures { IfOk result (λ made. made ≡ resource told.now) }
{
    let kind = word(alloc, "kind", kind_name(told.kind))?;
    let name = text(alloc, "name", &told.name)?;
    two(alloc, kind, name)
}

/// A run's number and the name of a stage of it.
pub(crate) fn stage_at(alloc: Global, run: u64, stage: &Text) -> Result<List<Member<Json>>, Memory>
    ensures { IfOk result (λ made. made ≡ stage_at run stage.now) }
{
    let run = number(alloc, "run", run)?;
    let stage = text(alloc, "stage", stage)?;
    two(alloc, run, stage)
}

/// A stage of a run.
fn stage_object(alloc: Global, told: &(u64, Text)) -> Result<Json, Memory>
    ensures { IfOk result (λ made. made ≡ stage_object told.now) }
{
    let members = stage_at(alloc, told.0, &told.1)?;
    Json::object(alloc, members)
}

/// Stages of runs as an array, in order.
pub(crate) fn stage_objects(alloc: Global, told: &List<(u64, Text)>) -> Result<Json, Memory>
    ensures { IfOk result (λ made. made ≡ json.Array (map stage_object told.now)) }
{
    let mut items = List::new(alloc);
    for stage in told.as_slice() {
        items.push(stage_object(alloc, stage)?)?;
    }
    Ok(Json::Array(items))
}

/// Puts a file's path, ref and repository behind the last member.
pub fn push_file(
    alloc: Global,
    members: &mut List<Member<Json>>,
    file: &FileKey,
) -> Result<(), Memory>
    ensures { OnOk result (members.new ≡ members.old ++ file_members file.now) }
{
    members.push(text(alloc, "path", &file.path)?)?;
    members.push(text(alloc, "ref", &file.git_ref)?)?;
    members.push(text(alloc, "repo", &file.repo)?)?;
    Ok(())
}

/// A file by its path, its ref and its repository.
pub fn file_object(alloc: Global, file: &FileKey) -> Result<Json, Memory>
    ensures { IfOk result (λ made. made ≡ file_object file.now) }
{
    let mut members = List::new(alloc);
    push_file(alloc, &mut members, file)?;
    Json::object(alloc, members)
}

/// A place in a file by its column, its line, and the file's path, ref and repository.
pub fn place_object(alloc: Global, place: &Place) -> Result<Json, Memory>
    ensures { IfOk result (λ made. made ≡ place_object place.now) }
{
    let col = number(alloc, "col", u64::from(place.col))?;
    let line = number(alloc, "line", u64::from(place.line))?;
    let mut members = two(alloc, col, line)?;
    push_file(alloc, &mut members, &place.file)?;
    Json::object(alloc, members)
}
