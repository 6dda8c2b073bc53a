ghost use Rattle.std.specs.Prelude.{◌≡◌, ◌↔◌, ◌+◌, ◌++◌, ◌∷◌, ◌==◌, [], length, IsTrue, IfOk};
ghost use Rattle.std.specs.Prelude.{OnOk};
ghost use Rattle.std.specs.List.{list_any};
ghost use Rattle.pl_template.specs.declared.forms.Piece.TheVariants.{Expression};
ghost use Rattle.pl_template.specs.Cutting.{holds_opening, pieces_of};
ghost use Rattle.pl_template.specs.Forms.{form_of};
ghost use Rattle.pl_template.specs.Splitting.{literal};

use crate::ends::split_closing;
use crate::forms::{Piece, ScalarForm};
use pl_base::{List, Memory, Text};
use std::alloc::Global;

/// Whether a `$` stands in a text. Most texts have none, and one byte is sought faster than three.
fn has_dollar(text: &str) -> bool
    ensures { result ≡ list_any (λ byte. byte == 36) text.now }
{
    text.as_bytes().contains(&b'$')
}

/// Whether `${{` stands anywhere in a text. It takes no memory.
pub fn begins_expression(text: &Text) -> bool
    ensures { result ≡ holds_opening text.now }
{
    let text = text.as_str();
    if !has_dollar(text) {
        return false;
    }
    text.contains("${{")
}

/// How expressions stand in a scalar's text (Microsoft Learn, Azure Pipelines, "Template
/// expressions").
///
/// An expression begins at `${{` and ends at the first `}}` outside single quotes: a quote opens a
/// string, and the
/// next one closes it. What stands between is told as it stands. Memory where memory is wanting.
pub fn scalar_form(alloc: Global, text: &Text) -> Result<ScalarForm, Memory>
    ensures { IfOk result (λ form. form ≡ form_of text.now) }
{
    let text = text.as_str();
    if !has_dollar(text) {
        return Ok(ScalarForm::Plain);
    }
    let Some((front, behind)) = text.split_once("${{") else {
        return Ok(ScalarForm::Plain);
    };
    let Some((inside, rest)) = split_closing(behind) else {
        return Ok(ScalarForm::Unclosed);
    };
    if is_alone(front, rest) {
        return Ok(ScalarForm::Whole(Text::from_str(alloc, inside)?));
    }
    match pieces_of(alloc, text)? {
        Some(pieces) => Ok(ScalarForm::Joined(pieces)),
        None => Ok(ScalarForm::Unclosed),
    }
}

/// Whether nothing stands in front of an expression and nothing behind it.
fn is_alone(front: &str, rest: &str) -> bool
    ensures { IsTrue result ↔ (length front.now + length rest.now ≡ 0) }
{
    front.is_empty() && rest.is_empty()
}

/// The pieces of a text, or None where an expression has no end.
fn pieces_of(alloc: Global, text: &str) -> Result<Option<List<Piece>>, Memory>
    ensures { IfOk result (λ pieces. pieces ≡ pieces_of text.now) }
{
    let mut pieces = List::new(alloc);
    let mut rest = text;
    while let Some((front, behind)) = rest.split_once("${{") {
        put_literal(alloc, &mut pieces, front)?;
        let Some((inside, after)) = split_closing(behind) else {
            return Ok(None);
        };
        put_expression(alloc, &mut pieces, inside)?;
        rest = whole(after);
    }
    put_literal(alloc, &mut pieces, rest)?;
    Ok(Some(pieces))
}

/// The text itself.
fn whole(text: &str) -> &str
    ensures { result.now ≡ text.now }
{
    text
}

/// Puts a literal behind the last piece, unless it is empty.
fn put_literal(alloc: Global, pieces: &mut List<Piece>, text: &str) -> Result<(), Memory>
    ensures { OnOk result (pieces.new ≡ pieces.old ++ literal text.now) }
{
    if text.is_empty() {
        return Ok(());
    }
    pieces.push(Piece::Literal(Text::from_str(alloc, text)?))?;
    Ok(())
}

/// Puts an expression behind the last piece.
fn put_expression(alloc: Global, pieces: &mut List<Piece>, inside: &str) -> Result<(), Memory>
    ensures { OnOk result (pieces.new ≡ pieces.old ++ Expression inside.now ∷ []) }
{
    pieces.push(Piece::Expression(Text::from_str(alloc, inside)?))?;
    Ok(())
}
