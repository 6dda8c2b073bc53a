//! Lists.

ghost use Rattle.std.specs.Prelude.{◌≡◌, ◌++◌, ◌∷◌, [], IfOk, OnOk};
ghost use Rattle.pl_bodies.specs.Fields.{behind, each, list_of};
ghost use Rattle.pl_bodies.specs.Meaning.{Gives};
ghost use Rattle.pl_trees.specs.Trees.{data_of_items, seen};
ghost use Rattle.pl_trees.specs.Views.{items_view};

use crate::fault::BodyFault;
use crate::field::Field;
use pl_base::{List, Memory};
use pl_trees::{Tree, items_in};
use std::alloc::Global;

/// No item yet, with room for so many.
fn with_room<F>(alloc: Global, room: usize) -> Result<Vec<F>, Memory>
    ensures { IfOk result (λ all. all.items ≡ []) }
{
    Ok(Vec::with_capacity(alloc, room)?)
}

/// Puts an item behind others.
#[inline(always)]
fn keep<F: Drop>(all: &mut Vec<F>, item: F) -> Result<(), Memory>
    ensures { OnOk result (all.new.items ≡ all.old.items ++ item ∷ []) }
{
    all.push(item)?;
    Ok(())
}

/// What each of the texts says, in order.
fn each_text<F: Field>(alloc: Global, texts: &[&str]) -> Result<List<F>, BodyFault>
    ensures { Gives result (each F.meant (data_of_items (items_view texts.now []))) }
{
    let mut all = with_room(alloc, texts.len())?;
    for text in texts {
        let item = F::read(alloc, &Tree::Text(*text))?;
        keep(&mut all, item)?;
    }
    Ok(List::from_vec(all))
}

/// What each of the values says, in order, behind what is there.
fn each_behind<F: Field>(
    alloc: Global,
    front: List<F>,
    values: &[Tree<'_>],
) -> Result<List<F>, BodyFault>
    ensures { Gives result
        (behind front (each F.meant (data_of_items (items_view [] values.now)))) }
{
    let mut all = front;
    for value in values {
        let item = F::read(alloc, value)?;
        all.push(item)?;
    }
    Ok(all)
}

/// What each of the items says, in order.
#[tactic(auto, using(crate::proofs::Steps::each_both))]
pub(crate) fn each<F: Field>(
    alloc: Global,
    texts: &[&str],
    rest: &[Tree<'_>],
) -> Result<List<F>, BodyFault>
    ensures { Gives result (each F.meant (data_of_items (items_view texts.now rest.now))) }
{
    let front = each_text(alloc, texts)?;
    each_behind(alloc, front, rest)
}

impl<F: Field> Field for List<F> {
    ghost meant = { list_of F.meant };

    fn read(alloc: Global, value: &Tree<'_>) -> Result<List<F>, BodyFault> {
        match items_in(value) {
            Some((texts, rest)) => each(alloc, texts, rest),
            None => Err(BodyFault::Bad),
        }
    }
}
