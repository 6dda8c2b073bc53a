ghost use Rattle.std.specs.Prelude.{◌≡◌, IfOk};
ghost use Rattle.std.specs.List.{list_any};
ghost use Rattle.pl_template.specs.Keys.{key_form_of, form_of_key, whole_form, directive_of};
ghost use Rattle.pl_template.specs.Keys.{directive_form, each_form, is_directive};
ghost use Rattle.pl_template.specs.Words.{behind_word};

use crate::cutting::scalar_form;
use crate::directive::{Directive, directive_of};
use crate::forms::{KeyForm, Piece, ScalarForm};
use crate::words::{is_name, split_word};
use pl_base::{List, Memory, Text};
use std::alloc::Global;

/// What a key is (Microsoft Learn, Azure Pipelines, "Template expressions").
///
/// A key that is one expression whose first word is exactly `if`, `elseif`, `else`, `each` or
/// `insert` is that directive. Blanks, which are spaces, tabs and line feeds, may stand before the
/// word, and it ends at a blank or at the expression's end. Bad where another piece stands beside a
/// directive, where no expression stands behind `if` or `elseif`, where `each` isn't followed by a
/// name, `in` and an expression, where anything stands behind `else` or `insert`, and where an
/// expression has no end. Every other key in which `${{` stands is Computed. Memory where memory is
/// wanting.
pub fn key_form(alloc: Global, text: &Text) -> Result<KeyForm, Memory>
    ensures { IfOk result (λ form. form ≡ key_form_of text.now) }
{
    match scalar_form(alloc, text)? {
        ScalarForm::Plain => Ok(KeyForm::Plain),
        ScalarForm::Whole(inside) => whole_form(alloc, inside),
        ScalarForm::Joined(pieces) => Ok(joined_form(pieces)),
        ScalarForm::Unclosed => Ok(KeyForm::Bad),
    }
}

/// What a key is that is one expression.
fn whole_form(alloc: Global, inside: Text) -> Result<KeyForm, Memory>
    ensures { IfOk result (λ form. form ≡ whole_form (directive_of inside) inside) }
{
    match directive_of(inside.as_str()) {
        Some(directive) => {
            let (_word, behind) = split_word(inside.as_str());
            directive_form(alloc, directive, behind)
        }
        None => Ok(KeyForm::Computed(ScalarForm::Whole(inside))),
    }
}

/// What a key of several pieces is.
fn joined_form(pieces: List<Piece>) -> KeyForm
    ensures { result ≡ form_of_key (ScalarForm.Joined pieces) }
{
    if has_directive(&pieces) {
        return KeyForm::Bad;
    }
    KeyForm::Computed(ScalarForm::Joined(pieces))
}

/// Whether one of the pieces is a directive.
fn has_directive(pieces: &List<Piece>) -> bool
    ensures { result ≡ list_any is_directive pieces.now }
{
    pieces.as_slice().iter().any(is_directive)
}

/// Whether a piece is a directive.
fn is_directive(piece: &Piece) -> bool
    ensures { result ≡ is_directive piece.now }
{
    match piece {
        Piece::Literal(_text) => false,
        Piece::Expression(inside) => directive_of(inside.as_str()).is_some(),
    }
}

/// What a directive makes of the text behind its word.
fn directive_form(alloc: Global, directive: Directive, text: &str) -> Result<KeyForm, Memory>
    ensures { IfOk result (λ form. form ≡ directive_form directive text.now) }
{
    match directive {
        Directive::If if !text.is_empty() => Ok(KeyForm::If(Text::from_str(alloc, text)?)),
        Directive::ElseIf if !text.is_empty() => Ok(KeyForm::ElseIf(Text::from_str(alloc, text)?)),
        Directive::Else if text.is_empty() => Ok(KeyForm::Else),
        Directive::Insert if text.is_empty() => Ok(KeyForm::Insert),
        Directive::Each => each_form(alloc, text),
        _ => Ok(KeyForm::Bad),
    }
}

/// A loop: its name, `in` and its expression.
fn each_form(alloc: Global, text: &str) -> Result<KeyForm, Memory>
    ensures { IfOk result (λ form. form ≡ each_form text.now) }
{
    let (name, behind) = split_word(text);
    let (word, expression) = split_word(behind);
    if !is_name(name) || word != "in" || expression.is_empty() {
        return Ok(KeyForm::Bad);
    }
    let name = Text::from_str(alloc, name)?;
    let expression = Text::from_str(alloc, expression)?;
    Ok(KeyForm::Each(name, expression))
}
