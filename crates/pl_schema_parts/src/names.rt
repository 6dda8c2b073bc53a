ghost use Rattle.std.specs.Prelude.{◌≡◌, [], Some, OnOk, IfOk};
ghost use Rattle.std.specs.List.{list_all};
ghost use Rattle.pl_expr.specs.Grammar.{is_word, is_name_byte};
ghost use Rattle.pl_schema_parts.specs.Gives.{Gives};
ghost use Rattle.pl_schema_parts.specs.Names.{is_name, is_taken, name_in, taken, also_taken};

use crate::fault::{SchemaCode, SchemaFault};
use crate::rows::at_node;
use crate::scalars::text_in;
use pl_base::{MarkedNode, Memory, Text, in_upper_case};
use std::alloc::Global;
use std::collections::BTreeSet;

/// How long a name may be, in bytes.
const LONGEST_NAME: usize = 100;

/// Names that are taken, told apart without regard to the case of ASCII's letters.
#[derive(Drop)]
pub struct Names {
    folded: BTreeSet<Text>,
}

/// No names.
pub fn no_names(alloc: Global) -> Names
    ensures { taken result ≡ is_taken [] }
{
    Names {
        folded: BTreeSet::new(alloc),
    }
}

/// Puts one more name among those that are taken.
pub fn take(alloc: Global, names: &mut Names, name: &Text) -> Result<(), Memory>
    ensures { OnOk result (taken names.new ≡ also_taken (taken names.old) (Some name.now)) }
{
    let name = Text::from_string(in_upper_case(alloc, name)?);
    names.folded.insert(name)?;
    Ok(())
}

/// Whether a name is taken.
fn is_taken(alloc: Global, names: &Names, name: &Text) -> Result<bool, Memory>
    ensures { IfOk result (λ is. is ≡ taken names.now name.now) }
{
    let name = Text::from_string(in_upper_case(alloc, name)?);
    let is = names.folded.contains(&name);
    Ok(is)
}

/// Whether a text is a name: a letter or `_`, then letters, digits and `_`, at most 100 bytes.
fn is_name(text: &Text) -> bool
    ensures { result ≡ is_name text.now }
{
    let bytes = text.as_bytes();
    begins_name(bytes) && are_name_bytes(bytes) && bytes.len() <= LONGEST_NAME
}

fn are_name_bytes(bytes: &[u8]) -> bool
    ensures { result ≡ list_all is_name_byte bytes.now }
{
    bytes.iter().all(|byte| is_name_byte(*byte))
}

fn begins_name(bytes: &[u8]) -> bool
    ensures { result ≡ is_word bytes.now }
{
    match bytes {
        [first, ..] => first.is_ascii_alphabetic() || *first == b'_',
        [] => false,
    }
}

fn is_name_byte(byte: u8) -> bool
    ensures { result ≡ is_name_byte byte }
{
    byte.is_ascii_alphanumeric() || byte == b'_'
}

/// A scalar that is a name which isn't taken.
#[tactic(auto, unfolding(crate::specs::Names::name_in))]
pub fn name_in(alloc: Global, names: &Names, node: &MarkedNode) -> Result<Text, SchemaFault>
    ensures { Gives result (name_in (taken names.now) node.now) }
{
    let text = text_in(alloc, node)?;
    if !is_name(&text) {
        return Err(at_node(alloc, SchemaCode::BadName, node));
    }
    if is_taken(alloc, names, &text)? {
        return Err(at_node(alloc, SchemaCode::NameTwice, node));
    }
    Ok(text)
}
