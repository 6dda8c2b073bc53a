ghost use Rattle.std.specs.Prelude.{◌≡◌, ◌∷◌, [], ◌++◌, map, flat_map, if◌then◌else◌, OnOk, IfOk};
ghost use Rattle.pl_expr.specs.Conversions.{cast_text};
ghost use Rattle.pl_expr.specs.Trees.{quoted, literal, listed, printed, dotted};

use crate::conversions::to_text;
use crate::expr::Expr;
use crate::scan::{split_quote, whole};
use pl_base::{List, Memory, Text, Value};
use std::alloc::Global;

/// An expression as a text of the grammar: functions in the documents' spelling, arguments joined
/// by `, `, `True` and `False`, indexes in brackets, and projections as `.*` and their names.
/// `parse` gives the tree back. A literal that the grammar never gives, as Null, is written as the
/// empty text.
pub fn print(alloc: Global, expr: &Expr) -> Result<Text, Memory>
    ensures { IfOk result (λ text. text ≡ printed expr.now) }
{
    let mut text = Text::new(alloc);
    push_expr(alloc, &mut text, expr)?;
    Ok(text)
}

#[cycle(printer)]
fn push_expr(alloc: Global, text: &mut Text, expr: &Expr) -> Result<(), Memory>
    ensures { OnOk result (text.new ≡ text.old ++ printed expr.now) }
{
    match expr {
        Expr::Lit(value) => push_literal(alloc, text, value),
        Expr::Root(name) => text.push_str(name.as_str()),
        Expr::Index(of, at) => {
            push_expr(alloc, text, of.get())?;
            text.push_str("[")?;
            push_expr(alloc, text, at.get())?;
            text.push_str("]")
        }
        Expr::Project(of, names) => {
            push_expr(alloc, text, of.get())?;
            text.push_str(".*")?;
            push_names(text, names)
        }
        Expr::Call(function, arguments) => {
            text.push_str(function.name())?;
            text.push_str("(")?;
            push_arguments(alloc, text, arguments)?;
            text.push_str(")")
        }
    }
}

#[cycle(printer)]
fn push_arguments(alloc: Global, text: &mut Text, arguments: &List<Expr>) -> Result<(), Memory>
    ensures { OnOk result (text.new ≡ text.old ++ listed (map printed arguments.now)) }
{
    for (index, argument) in arguments.as_slice().iter().enumerate() {
        push_separator(text, index == 0)?;
        push_expr(alloc, text, argument)?;
    }
    Ok(())
}

/// The comma and the space in front of each argument but the first.
fn push_separator(text: &mut Text, first: bool) -> Result<(), Memory>
    ensures { OnOk result (text.new ≡ text.old ++ (if first then [] else 44 ∷ 32 ∷ [])) }
{
    if !first {
        text.push_str(", ")?;
    }
    Ok(())
}

fn push_names(text: &mut Text, names: &List<Text>) -> Result<(), Memory>
    ensures { OnOk result (text.new ≡ text.old ++ dotted names.now) }
{
    for name in names.as_slice() {
        text.push_str(".")?;
        text.push_str(name.as_str())?;
    }
    Ok(())
}

fn push_literal(alloc: Global, text: &mut Text, value: &Value) -> Result<(), Memory>
    ensures { OnOk result (text.new ≡ text.old ++ literal value.now) }
{
    match value {
        Value::Bool(_) | Value::Number(_) | Value::Version(_) => push_converted(alloc, text, value),
        Value::Str(content) => {
            text.push_str("'")?;
            push_quoted(text, content.as_str())?;
            text.push_str("'")
        }
        Value::Null | Value::Array(_) | Value::Object(_) => text.push_str("''"),
    }
}

/// A value that is written as the text that it converts to.
fn push_converted(alloc: Global, text: &mut Text, value: &Value) -> Result<(), Memory>
    ensures { OnOk result (text.new ≡ text.old ++ cast_text value.now) }
{
    let converted = to_text(alloc, value)?;
    text.push_str(converted.as_str())
}

/// A text whose quotes are written twice.
fn push_quoted(text: &mut Text, content: &str) -> Result<(), Memory>
    ensures { OnOk result (text.new ≡ text.old ++ quoted content.now) }
{
    let mut rest = content;
    while let Some((piece, behind)) = split_quote(rest) {
        text.push_str(piece)?;
        text.push_str("''")?;
        rest = whole(behind);
    }
    text.push_str(rest)
}
