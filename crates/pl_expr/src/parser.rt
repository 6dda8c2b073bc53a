ghost use Rattle.std.specs.Prelude.{◌≡◌, ◌≤◌, ◌<◌, ◌+◌, ◌-◌, ◌^◌, ◌&&◌, true, [], nat_lt, drop};
ghost use Rattle.std.specs.Prelude.{length, IfOk};
ghost use Rattle.pl_expr.specs.Grammar.{is_word, text_at, inner_of, primary_at, word_at, call_at};
ghost use Rattle.pl_expr.specs.Grammar.{arguments_at, behind_argument, tails_at, tail_at};
ghost use Rattle.pl_expr.specs.Grammar.{member_at, index_at, names_at, begins_tail, deep_fault};
ghost use Rattle.pl_expr.specs.Grammar.{text_whole, parses};
ghost use Rattle.pl_reading.specs.Bytes.{begins_with};
ghost use Rattle.pl_expr.specs.Parsing.{Gives, Answers};

use crate::expr::{Expr, Function, Mode};
use crate::fault::{ExprCode, ExprFault};
use crate::literals::{read_number_literal, read_string, stop_at, word_tree};
use crate::numerals::skip_blanks;
use crate::scan::{Front, begins_with, front_of, is_word, skip_byte, split_word, whole};
use crate::stop::Stop;
use crate::tree::{Arguments, Tree};
use pl_base::{List, Memory, Text, Value};
use std::alloc::Global;

/// How deep a tree may be, a leaf being 1 deep.
const DEEPEST: u32 = 50;

/// A tree of at most this depth, the blanks in front of it and those behind it; and what stands
/// behind them.
#[cycle(parser)]
#[tactic(auto, using(crate::proofs::Reading::text_is), unfolding(crate::specs::Grammar::expression_at))]
fn read_text<'t>(
    alloc: Global,
    mode: Mode,
    depth: u32,
    text: &'t str,
) -> Result<(Tree, &'t str), Stop>
    ensures gives { Gives (λ read. (read.0.expr, read.1.now)) result (text_at mode depth text.now) }
    ensures within { IfOk result (λ read. read.0.depth ≤ depth) }
{
    let (tree, rest) = read_primary(alloc, mode, depth, skip_blanks(text))?;
    read_tails(alloc, mode, depth, tree, rest)
}

/// A primary of at most this depth, and what stands behind it.
#[cycle(parser)]
#[tactic(auto, unfolding(crate::specs::Grammar::primary_at))]
fn read_primary<'t>(
    alloc: Global,
    mode: Mode,
    depth: u32,
    text: &'t str,
) -> Result<(Tree, &'t str), Stop>
    ensures gives { Gives (λ read. (read.0.expr, read.1.now)) result
        (primary_at mode (nat_lt 0 depth) (inner_of mode depth) text.now) }
    ensures within { IfOk result (λ read. read.0.depth ≤ depth) }
{
    match front_of(text) {
        Front::Quote => read_string(alloc, depth > 0, text),
        Front::Word => read_word(alloc, mode, depth, text),
        Front::Digits if depth > 0 => read_number_literal(alloc, text),
        Front::Digits => Err(stop_at(ExprCode::TooDeep, text)),
        Front::Fraction => Err(stop_at(ExprCode::Fraction, text)),
        Front::Nothing => Err(stop_at(ExprCode::BadChar, text)),
    }
}

/// A name that stands by itself, or a call.
#[cycle(parser)]
#[tactic(auto, unfolding(crate::specs::Grammar::word_at))]
fn read_word<'t>(
    alloc: Global,
    mode: Mode,
    depth: u32,
    text: &'t str,
) -> Result<(Tree, &'t str), Stop>
    ensures gives { Gives (λ read. (read.0.expr, read.1.now)) result
        (word_at mode (nat_lt 0 depth) (inner_of mode depth) text.now) }
    ensures within { IfOk result (λ read. read.0.depth ≤ depth) }
{
    let (word, rest) = split_word(text);
    let inside = skip_blanks(rest);
    if begins_with(inside, b'(') {
        return match Function::named(mode, word) {
            None => Err(stop_at(ExprCode::UnknownFunction, text)),
            Some(_) if depth == 0 => Err(stop_at(ExprCode::TooDeep, text)),
            Some(function) => read_call(alloc, mode, depth, function, skip_byte(inside, b'(')),
        };
    }
    if depth == 0 {
        return Err(stop_at(ExprCode::TooDeep, text));
    }
    Ok((word_tree(alloc, word)?, rest))
}

/// A call, from behind its `(` on.
#[cycle(parser)]
#[tactic(auto, unfolding(crate::specs::Grammar::call_at))]
fn read_call<'t>(
    alloc: Global,
    mode: Mode,
    depth: u32,
    function: Function,
    text: &'t str,
) -> Result<(Tree, &'t str), Stop>
    requires { 0 < depth }
    ensures gives { Gives (λ read. (read.0.expr, read.1.now)) result
        (call_at (inner_of mode depth) function text.now) }
    ensures within { IfOk result (λ read. read.0.depth ≤ depth) }
{
    if begins_with(text, b')') {
        if !function.takes(0) {
            return Err(stop_at(ExprCode::BadCount, text));
        }
        return Ok((
            Tree::call(function, Arguments::new(alloc)),
            skip_byte(text, b')'),
        ));
    }
    let (arguments, rest) = read_arguments(alloc, mode, depth, function, text)?;
    Ok((Tree::call(function, arguments), rest))
}

/// A call's arguments and its `)`.
#[cycle(parser)]
fn read_arguments<'t>(
    alloc: Global,
    mode: Mode,
    depth: u32,
    function: Function,
    text: &'t str,
) -> Result<(Arguments, &'t str), Stop>
    requires { 0 < depth }
    ensures gives { Gives (λ read. (read.0.list, read.1.now)) result
        (arguments_at (inner_of mode depth) function (length text.now) [] text.now) }
    ensures within { IfOk result (λ read. read.0.depth + 1 ≤ depth) }
{
    let mut arguments = Arguments::new(alloc);
    let mut rest = text;
    for _turn in 0..text.len() {
        let (argument, behind) = read_text(alloc, mode, depth - 1, rest)?;
        arguments.push(argument)?;
        let (more, next) = read_behind(function, arguments.list.len(), behind)?;
        if !more {
            return Ok((arguments, next));
        }
        rest = whole(next);
    }
    Err(stop_at(ExprCode::BadChar, rest))
}

/// What stands behind so many arguments: whether another one follows, and the text behind the `,`
/// or `)`.
#[tactic(auto, unfolding(crate::specs::Grammar::behind_argument))]
fn read_behind(function: Function, count: usize, text: &str) -> Result<(bool, &str), Stop>
    ensures { Gives (λ read. (read.0, read.1.now)) result (behind_argument function count text.now) }
{
    if begins_with(text, b',') {
        if !function.takes_more(count) {
            return Err(stop_at(ExprCode::BadCount, text));
        }
        return Ok((true, skip_byte(text, b',')));
    }
    if !begins_with(text, b')') {
        return Err(stop_at(ExprCode::BadChar, text));
    }
    if !function.takes(count) {
        return Err(stop_at(ExprCode::BadCount, text));
    }
    Ok((false, skip_byte(text, b')')))
}

/// The tails of a tree, and the blanks behind them.
#[cycle(parser)]
fn read_tails<'t>(
    alloc: Global,
    mode: Mode,
    depth: u32,
    tree: Tree,
    text: &'t str,
) -> Result<(Tree, &'t str), Stop>
    requires { tree.depth ≤ depth }
    ensures gives { Gives (λ read. (read.0.expr, read.1.now)) result
        (tails_at (inner_of mode depth) depth depth tree.expr text.now) }
    ensures within { IfOk result (λ read. read.0.depth ≤ depth) }
{
    let mut tree = tree;
    let mut rest = text;
    'tails: loop {
        let here = skip_blanks(rest);
        if !begins_tail(here) {
            return Ok((tree, here));
        }
        if tree.depth >= depth {
            return Err(deep_stop(&tree, rest));
        }
        let (next, behind) = read_tail(alloc, mode, depth, tree, here)?;
        tree = next;
        rest = whole(behind);
    }
}

/// The stop at one more tail behind a tree as deep as it may get. The text begins right behind the
/// tree.
///
/// Names make a projection no deeper, so a dot right behind one may begin a name. Where it begins
/// neither a name nor `.*`, the byte behind the dot is what fits nothing.
#[tactic(auto, unfolding(crate::specs::Grammar::deep_fault))]
fn deep_stop(tree: &Tree, text: &str) -> Stop
    ensures { result ≡ Stop.Fault (deep_fault tree.now.expr text.now).0
        (deep_fault tree.now.expr text.now).1 }
{
    if tree.is_projection() && begins_with(text, b'.') {
        let behind = skip_byte(text, b'.');
        if !begins_with(behind, b'*') && !is_word(behind) {
            return stop_at(ExprCode::BadChar, behind);
        }
    }
    stop_at(ExprCode::TooDeep, skip_blanks(text))
}

/// Whether the text begins with a tail's first byte.
fn begins_tail(text: &str) -> bool
    ensures { result ≡ begins_tail text.now }
{
    begins_with(text, b'.') || begins_with(text, b'[')
}

/// A tail and what stands behind it.
#[cycle(parser)]
#[tactic(auto, using(crate::proofs::Reading::tail_dot), unfolding(crate::specs::Grammar::tail_at))]
fn read_tail<'t>(
    alloc: Global,
    mode: Mode,
    depth: u32,
    tree: Tree,
    text: &'t str,
) -> Result<(Tree, &'t str), Stop>
    requires deeper { tree.depth < depth }
    requires tail { begins_tail text.now ≡ true }
    ensures gives { Gives (λ read. (read.0.expr, read.1.now)) result
        (tail_at (inner_of mode depth) tree.expr text.now) }
    ensures within { IfOk result (λ read. read.0.depth ≤ depth) }
    ensures grown { IfOk result (λ read. tree.depth < read.0.depth) }
{
    if begins_with(text, b'[') {
        read_index(alloc, mode, depth, tree, skip_byte(text, b'['))
    } else {
        read_member(alloc, tree, skip_byte(text, b'.'))
    }
}

/// An index, from behind its `[` on.
#[cycle(parser)]
#[tactic(auto, using(crate::proofs::Reading::inner_is), unfolding(crate::specs::Grammar::index_at))]
fn read_index<'t>(
    alloc: Global,
    mode: Mode,
    depth: u32,
    tree: Tree,
    text: &'t str,
) -> Result<(Tree, &'t str), Stop>
    requires { tree.depth < depth }
    ensures gives { Gives (λ read. (read.0.expr, read.1.now)) result
        (index_at (inner_of mode depth) tree.expr text.now) }
    ensures within { IfOk result (λ read. read.0.depth ≤ depth) }
    ensures grown { IfOk result (λ read. tree.depth < read.0.depth) }
{
    let (index, rest) = read_text(alloc, mode, depth - 1, text)?;
    if !begins_with(rest, b']') {
        return Err(stop_at(ExprCode::BadChar, rest));
    }
    Ok((Tree::index(alloc, tree, index)?, skip_byte(rest, b']')))
}

/// What stands behind a dot: a projection with its names, or a property's name.
#[tactic(auto, unfolding(crate::specs::Grammar::member_at))]
fn read_member<'t>(alloc: Global, tree: Tree, text: &'t str) -> Result<(Tree, &'t str), Stop>
    requires { tree.depth + 1 < 2 ^ 32 }
    ensures gives { Gives (λ read. (read.0.expr, read.1.now)) result (member_at tree.expr text.now) }
    ensures deeper { IfOk result (λ read. read.0.depth ≡ tree.depth + 1) }
{
    if begins_with(text, b'*') {
        let (names, rest) = read_names(alloc, text.len(), skip_byte(text, b'*'))?;
        return Ok((Tree::project(alloc, tree, names)?, rest));
    }
    if !is_word(text) {
        return Err(stop_at(ExprCode::BadChar, text));
    }
    let (word, rest) = split_word(text);
    let name = Tree::literal(Value::Str(Text::from_str(alloc, word)?));
    Ok((Tree::index(alloc, tree, name)?, rest))
}

/// Whether the text begins with a dot and a name.
fn begins_name(text: &str) -> bool
    ensures { result ≡ (begins_with 46 text.now && is_word (drop 1 text.now)) }
{
    begins_with(text, b'.') && is_word(skip_byte(text, b'.'))
}

/// A projection's names, each behind a dot, and what stands behind them.
#[tactic(auto, using(crate::proofs::Reading::names_stop, crate::proofs::Reading::names_step, std::proofs::lemmas::Bool::and_parts), unfolding(crate::specs::Grammar::names_at))]
fn read_names(alloc: Global, turns: usize, text: &str) -> Result<(List<Text>, &str), Memory>
    ensures { IfOk result (λ read. (read.0, read.1.now) ≡ names_at turns [] text.now) }
{
    let mut names = List::new(alloc);
    let mut rest = text;
    for _turn in 0..turns {
        if !begins_name(rest) {
            return Ok((names, rest));
        }
        let (name, behind) = split_word(skip_byte(rest, b'.'));
        names.push(Text::from_str(alloc, name)?)?;
        rest = whole(behind);
    }
    Ok((names, rest))
}

/// The tree of a whole text.
#[tactic(auto, unfolding(crate::specs::Grammar::text_whole))]
fn read_whole(alloc: Global, text: &str, mode: Mode) -> Result<Tree, Stop>
    ensures { Gives (λ tree. tree.expr) result (text_whole mode text.now) }
{
    let (tree, rest) = read_text(alloc, mode, DEEPEST, text)?;
    if !rest.is_empty() {
        return Err(stop_at(ExprCode::Trailing, rest));
    }
    Ok(tree)
}

/// The expression that a text is.
///
/// A refusal has the code of the text's first fault and its offset in bytes. `Memory` comes where
/// memory is wanting. The grammar is that of Microsoft Learn, Azure Pipelines, "Expressions",
/// without decimal fractions and grouping parentheses: a tree is at most 50 deep, numbers have 64
/// signed bits, versions three or four segments of at most 2147483647, and status functions stand
/// in conditions alone.
#[tactic(auto, unfolding(crate::specs::Grammar::parses))]
pub fn parse(alloc: Global, text: &Text, mode: Mode) -> Result<Expr, ExprFault>
    ensures { Answers result (parses mode text.now) }
{
    match read_whole(alloc, text.as_str(), mode) {
        Ok(tree) => Ok(tree.expr),
        Err(Stop::Fault(code, left)) => {
            let at = text.len().saturating_sub(left) as u64;
            Err(ExprFault::Refused { code, at })
        }
        Err(Stop::Memory) => Err(ExprFault::Memory),
    }
}
