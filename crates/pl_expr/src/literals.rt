ghost use Rattle.std.specs.Prelude.{◌≡◌, ◌≤◌, true, drop, length, IfOk, Err};
ghost use Rattle.pl_expr.specs.Grammar.{string_read, unquoted, unsigned_at, signed_at, number_at};
ghost use Rattle.pl_expr.specs.Grammar.{word_tree, stop};
ghost use Rattle.pl_reading.specs.Bytes.{begins_with};
ghost use Rattle.pl_expr.specs.Parsing.{Gives};

use crate::conversions::same_folded;
use crate::fault::ExprCode;
use crate::numerals::{
    as_segments, count_digits, leading_number, read_runs, skip_digits, with_sign,
};
use crate::scan::{begins_with, read_quoted, skip_byte};
use crate::stop::Stop;
use crate::tree::Tree;
use pl_base::{Memory, Text, Value};
use std::alloc::Global;

/// The stop at the front of the text that is left.
pub fn stop_at(code: ExprCode, text: &str) -> Stop
    ensures { result ≡ Stop.Fault code (length text.now) }
{
    Stop::Fault(code, text.len())
}

/// A string, and what stands behind it. There is room for it where a leaf may stand here.
pub fn read_string(alloc: Global, room: bool, text: &str) -> Result<(Tree, &str), Stop>
    requires { begins_with 39 text.now ≡ true }
    ensures gives { Gives (λ read. (read.0.expr, read.1.now)) result
        (string_read text.now room (unquoted (drop 1 text.now))) }
    ensures leaf { IfOk result (λ read. read.0.depth ≡ 1) }
{
    match read_quoted(alloc, skip_byte(text, b'\''))? {
        None => Err(stop_at(ExprCode::UnclosedString, text)),
        Some(_) if !room => Err(stop_at(ExprCode::TooDeep, text)),
        Some((content, rest)) => Ok((Tree::literal(Value::Str(content)), rest)),
    }
}

/// A number or a version, and what stands behind it.
pub fn read_number_literal(alloc: Global, text: &str) -> Result<(Tree, &str), Stop>
    ensures gives { Gives (λ read. (read.0.expr, read.1.now)) result (number_at text.now) }
    ensures leaf { IfOk result (λ read. read.0.depth ≡ 1) }
{
    if begins_with(text, b'-') {
        read_negative(alloc, text, skip_byte(text, b'-'))
    } else {
        read_unsigned(alloc, text)
    }
}

/// A number behind its minus. The text begins at the minus.
#[tactic(auto, using(crate::proofs::Bytes::signed_capped), unfolding(crate::specs::Grammar::signed_at))]
fn read_negative<'t>(alloc: Global, text: &str, body: &'t str) -> Result<(Tree, &'t str), Stop>
    ensures gives { Gives (λ read. (read.0.expr, read.1.now)) result (signed_at text.now body.now) }
    ensures leaf { IfOk result (λ read. read.0.depth ≡ 1) }
{
    if count_digits(body) == 0 {
        return Err(stop_at(ExprCode::BadChar, body));
    }
    let (numbers, _) = read_runs(alloc, body)?;
    if numbers.len() == 2 {
        return Err(stop_at(ExprCode::Fraction, text));
    }
    match with_sign(true, leading_number(body)) {
        Some(number) => Ok((Tree::literal(Value::Number(number)), skip_digits(body))),
        None => Err(stop_at(ExprCode::NumberRange, text)),
    }
}

/// A number or a version without a sign.
#[tactic(auto, using(crate::proofs::Bytes::signed_capped, crate::proofs::Bytes::segments_of_capped), unfolding(crate::specs::Grammar::unsigned_at))]
fn read_unsigned(alloc: Global, text: &str) -> Result<(Tree, &str), Stop>
    ensures gives { Gives (λ read. (read.0.expr, read.1.now)) result (unsigned_at text.now) }
    ensures leaf { IfOk result (λ read. read.0.depth ≡ 1) }
{
    let (numbers, behind) = read_runs(alloc, text)?;
    if numbers.len() == 1 {
        return match with_sign(false, leading_number(text)) {
            Some(number) => Ok((Tree::literal(Value::Number(number)), skip_digits(text))),
            None => Err(stop_at(ExprCode::NumberRange, text)),
        };
    }
    if numbers.len() == 2 {
        return Err(stop_at(ExprCode::Fraction, text));
    }
    match as_segments(alloc, &numbers)? {
        Some(segments) => Ok((Tree::literal(Value::Version(segments)), behind)),
        None => Err(stop_at(ExprCode::NumberRange, text)),
    }
}

/// The tree of a name that stands by itself: a Boolean, or a root.
#[tactic(auto, unfolding(crate::specs::Grammar::word_tree))]
pub fn word_tree(alloc: Global, word: &str) -> Result<Tree, Memory>
    ensures expr { IfOk result (λ tree. tree.expr ≡ word_tree word.now) }
    ensures leaf { IfOk result (λ tree. tree.depth ≡ 1) }
{
    if same_folded("true", word) {
        return Ok(Tree::literal(Value::Bool(true)));
    }
    if same_folded("false", word) {
        return Ok(Tree::literal(Value::Bool(false)));
    }
    Ok(Tree::root(Text::from_str(alloc, word)?))
}
