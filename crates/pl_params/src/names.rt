ghost use Rattle.std.specs.Prelude.{◌≡◌, IfOk, find};
ghost use Rattle.std.specs.Option.{option_copied};
ghost use Rattle.pl_literal.specs.Booleans.{spells};
ghost use Rattle.pl_params.specs.Names.{is_declared, Indexes};

use crate::given::Given;
use crate::param::Param;
use pl_base::{List, Memory, Text, in_upper_case};
use pl_literal::spells;
use std::alloc::Global;
use std::collections::HashMap;

/// Where each name first stands in a list, by the name in upper case.
pub type Places = HashMap<String, usize>;

/// Whether one of the declared parameters has that name, the case of ASCII's letters aside.
pub fn is_declared(declared: &List<Param>, name: &str) -> bool
    ensures { result ≡ is_declared declared.now name.now }
{
    declared
        .as_slice()
        .iter()
        .any(|param| spells(name, param.name.as_str()))
}

/// Where the names of what is given first stand.
pub fn places_of_given(alloc: Global, given: &List<Given>) -> Result<Places, Memory>
    ensures { IfOk result (λ places. Indexes (λ one. one.name) given.now places) }
{
    let mut places = HashMap::new(alloc);
    let items = given.as_slice();
    for at in (0..items.len()).rev() {
        let name = in_upper_case(alloc, &items[at].name)?;
        places.insert(name, at)?;
    }
    Ok(places)
}

/// Where the names of the declared parameters first stand.
pub fn places_of_params(alloc: Global, declared: &List<Param>) -> Result<Places, Memory>
    ensures { IfOk result (λ places. Indexes (λ param. param.name) declared.now places) }
{
    let mut places = HashMap::new(alloc);
    let items = declared.as_slice();
    for at in (0..items.len()).rev() {
        let name = in_upper_case(alloc, &items[at].name)?;
        places.insert(name, at)?;
    }
    Ok(places)
}

/// Whether one of the declared parameters has that name.
pub fn has_name(
    alloc: Global,
    _declared: &List<Param>,
    places: &Places,
    name: &Text,
) -> Result<bool, Memory>
    requires { Indexes (λ param. param.name) _declared.now places.now }
    ensures { IfOk result (λ is. is ≡ is_declared _declared.now name.now) }
{
    let name = in_upper_case(alloc, name)?;
    let is = places.contains_key(name.as_str());
    Ok(is)
}

/// The first that is given under that name.
pub fn first_named<'g>(
    alloc: Global,
    given: &'g List<Given>,
    places: &Places,
    name: &Text,
) -> Result<Option<&'g Given>, Memory>
    requires { Indexes (λ one. one.name) given.now places.now }
    ensures { IfOk result (λ found. option_copied found ≡ find (λ one. spells name.now one.name)
        given.now) }
{
    let name = in_upper_case(alloc, name)?;
    match places.get(name.as_str()) {
        Some(at) => Ok(given.get(*at)),
        None => Ok(None),
    }
}
