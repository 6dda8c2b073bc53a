//! Objects of texts, as lists by their names.

ghost use Rattle.std.specs.Prelude.{◌≡◌, ℕ, List as list};
ghost use Rattle.pl_bodies.specs.Fields.{each_named, field, texts_by_name};
ghost use Rattle.pl_bodies.specs.Meaning.{Gives};
ghost use Rattle.pl_trees.specs.Trees.{entries_seen, seen};

use crate::fault::BodyFault;
use crate::field::Field;
use pl_base::{Argument, List, Text};
use pl_trees::{Tree, by_name, get};
use std::alloc::Global;
use std::collections::BTreeMap;

/// A text with its name.
pub(crate) trait Named: Drop {
    /// The item of a name and a text.
    ghost makes: { list ℕ → list ℕ → Self };

    fn named(name: Text, text: Text) -> Self
        ensures { result ≡ makes name text };
}

impl Named for (Text, Text) {
    ghost use Rattle.pl_bodies.specs.Fields.{pair};

    ghost makes = { pair };

    fn named(name: Text, text: Text) -> (Text, Text) {
        (name, text)
    }
}

impl Named for Argument {
    ghost use Rattle.pl_bodies.specs.Fields.{argument};

    ghost makes = { argument };

    fn named(name: Text, text: Text) -> Argument {
        Argument { name, text }
    }
}

/// An item for each of the members, in byte order of their names.
fn each_named<N: Named>(
    alloc: Global,
    members: BTreeMap<&str, &Tree<'_>>,
) -> Result<List<N>, BodyFault>
    ensures { Gives result (each_named N.makes (entries_seen members.entry.entries)) }
{
    let mut all = List::new(alloc);
    for (name, value) in members {
        let text = Text::read(alloc, value)?;
        let own = Text::from_str(alloc, name)?;
        let item = N::named(own, text);
        all.push(item)?;
    }
    Ok(all)
}

/// The items of an object of texts.
fn texts_by_name<N: Named>(alloc: Global, value: &Tree<'_>) -> Result<List<N>, BodyFault>
    ensures { Gives result (texts_by_name N.makes (seen value.now)) }
{
    match by_name(alloc, value)? {
        Some(members) => each_named(alloc, members),
        None => Err(BodyFault::Bad),
    }
}

/// A field that is an object of texts and must be there.
pub(crate) fn field_by_name<N: Named>(
    alloc: Global,
    object: &Tree<'_>,
    name: &str,
) -> Result<List<N>, BodyFault>
    ensures { Gives result (field (texts_by_name N.makes) name.now (seen object.now)) }
{
    match get(object, name) {
        Some(value) => texts_by_name(alloc, value),
        None => Err(BodyFault::Bad),
    }
}
