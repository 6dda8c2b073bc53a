//! Values by the grammar of `json`.

ghost use Rattle.std.specs.Prelude.{◌≡◌, ◌<◌, ◌≤◌, ◌++◌, ◌∷◌, [], length, Err, IfOk, IfSome};
ghost use Rattle.std.specs.Prelude.{OnOk, Some, None};
ghost use Rattle.json.specs.Json.{Json, array, items, members, value};
ghost use Rattle.json.specs.Reads.{token_of};
ghost use Rattle.json.specs.Token.{string};
ghost use Rattle.pl_trees.specs.Views.{items_view, list_view, members_view, tree_view};
ghost use Rattle.pl_trees.specs.declared.reading.Unread.TheVariants.{Bad};

use crate::tree::{Member, Tree};
use json::{Invalid, Reader, Token};
use pl_base::Memory;
use std::alloc::Global;

/// Why no value was read.
#[derive(Clone, Copy, Drop)]
pub(crate) enum Unread {
    /// None stands there.
    Bad,
    /// Memory was wanting.
    Memory,
}

impl From<Memory> for Unread {
    ghost use Rattle.pl_trees.specs.declared.reading.Unread.TheVariants.{Memory as wanting};
    ghost use Rattle.std.specs.Prelude.{◌≡◌};

    ghost from_gives = { λ _ e. e ≡ wanting };

    fn from(_wanting: Memory) -> Unread {
        Unread::Memory
    }
}

impl From<Invalid> for Unread {
    ghost use Rattle.pl_trees.specs.declared.reading.Unread.TheVariants.{Bad as bad};
    ghost use Rattle.std.specs.Prelude.{◌≡◌};

    ghost from_gives = { λ _ e. e ≡ bad };

    fn from(_invalid: Invalid) -> Unread {
        Unread::Bad
    }
}

/// The value that comes next. Lists and objects may nest so deep.
#[cycle(reading)]
#[inline(always)]
pub(crate) fn read_value<'v>(
    alloc: Global,
    reader: &mut Reader<'v>,
    depth: usize,
) -> Result<Tree<'v>, Unread>
    ensures ok { IfOk result (λ tree. value depth reader.old ≡ Some (tree_view tree, reader.new)) }
    ensures shorter { OnOk result (length reader.new < length reader.old) }
    ensures bad { result ≡ Err Bad → value depth reader.old ≡ None }
{
    let token = reader.next().ok_or(Unread::Bad)?;
    value_from(alloc, token, reader, depth)
}

/// The value that begins with a token.
#[cycle(reading)]
#[inline(always)]
fn value_from<'v>(
    alloc: Global,
    token: Token<'v>,
    reader: &mut Reader<'v>,
    depth: usize,
) -> Result<Tree<'v>, Unread>
    ensures ok { IfOk result (λ tree.
        value depth (token_of token.entry ∷ reader.old) ≡ Some (tree_view tree, reader.new)) }
    ensures shorter { OnOk result (length reader.new ≤ length reader.old) }
    ensures bad { result ≡ Err Bad → value depth (token_of token.entry ∷ reader.old) ≡ None }
{
    match token {
        Token::String(text) => Ok(Tree::Text(text)),
        Token::Number(text) => Ok(Tree::Number(text)),
        Token::Bool(b) => Ok(Tree::Bool(b)),
        Token::Null => Ok(Tree::Null),
        Token::EndObject | Token::EndArray | Token::Key(_) | Token::Bad => Err(Unread::Bad),
        Token::BeginArray => {
            if depth == 0 {
                return Err(Unread::Bad);
            }
            Ok(list(read_items(alloc, reader, depth - 1)?))
        }
        Token::BeginObject => {
            if depth == 0 {
                return Err(Unread::Bad);
            }
            Ok(Tree::Object(read_members(alloc, reader, depth - 1)?))
        }
    }
}

/// A list of texts and the items behind them.
#[inline(always)]
fn list<'v>(found: (Vec<&'v str>, Vec<Tree<'v>>)) -> Tree<'v>
    ensures { tree_view result ≡ array (items_view found.entry.0.items found.entry.1.items) }
{
    Tree::List(found.0, found.1)
}

/// A token's text, where it is one and a list has no items but texts so far.
#[inline(always)]
fn front<'v>(token: &Token<'v>, rest: &[Tree<'v>]) -> Option<&'v str>
    ensures { IfSome result (λ text. (token_of token.now ≡ string text.now) × (rest.now ≡ [])) }
{
    match token {
        Token::String(text) => { if rest.is_empty() { Some(*text) } else { None } }
        Token::BeginObject => None,
        Token::EndObject => None,
        Token::BeginArray => None,
        Token::EndArray => None,
        Token::Key(_) => None,
        Token::Number(_) => None,
        Token::Bool(_) => None,
        Token::Null => None,
        Token::Bad => None,
    }
}

/// Puts a text behind a list's texts.
#[inline(always)]
fn keep_text<'v>(texts: &mut Vec<&'v str>, text: &'v str) -> Result<(), Memory>
    ensures { OnOk result (texts.new.items ≡ texts.old.items ++ text.entry ∷ []) }
{
    texts.push(text)?;
    Ok(())
}

/// Puts an item behind those behind a list's texts.
#[inline(always)]
fn keep<'v>(rest: &mut Vec<Tree<'v>>, item: Tree<'v>) -> Result<(), Memory>
    ensures { OnOk result (rest.new.items ≡ rest.old.items ++ item.entry ∷ []) }
{
    rest.push(item)?;
    Ok(())
}

/// Reads the item that comes next, and puts it behind those of a list.
#[cycle(reading)]
#[inline(always)]
fn read_item<'v>(
    alloc: Global,
    reader: &mut Reader<'v>,
    depth: usize,
    texts: &mut Vec<&'v str>,
    rest: &mut Vec<Tree<'v>>,
) -> Result<(), Unread>
    ensures ok { OnOk result ((item : Json) × (value depth reader.old ≡ Some (item, reader.new)) ×
        (list_view texts.new.items rest.new.items ≡
        list_view texts.old.items rest.old.items ++ item ∷ [])) }
    ensures shorter { OnOk result (length reader.new < length reader.old) }
    ensures bad { result ≡ Err Bad → value depth reader.old ≡ None }
{
    let token = reader.next().ok_or(Unread::Bad)?;
    match front(&token, rest.as_slice()) {
        Some(text) => keep_text(texts, text)?,
        None => {
            let item = value_from(alloc, token, reader, depth)?;
            keep(rest, item)?;
        }
    }
    Ok(())
}

/// The items of a list, behind its bracket.
#[cycle(reading)]
#[inline(never)]
fn read_items<'v>(
    alloc: Global,
    reader: &mut Reader<'v>,
    depth: usize,
) -> Result<(Vec<&'v str>, Vec<Tree<'v>>), Unread>
    ensures ok { IfOk result (λ found. items (value depth) (length reader.old) reader.old
        ≡ Some (items_view found.0.items found.1.items, reader.new)) }
    ensures shorter { OnOk result (length reader.new < length reader.old) }
    ensures bad { result ≡ Err Bad → items (value depth) (length reader.old) reader.old ≡ None }
{
    let mut texts = Vec::new(alloc);
    let mut rest = Vec::new(alloc);
    'items: while !reader.take_end_array() {
        read_item(alloc, reader, depth, &mut texts, &mut rest)?;
    }
    Ok((texts, rest))
}

/// Puts a member behind those of an object.
#[inline(always)]
fn put<'v>(found: &mut Vec<Member<'v>>, name: &'v str, value: Tree<'v>) -> Result<(), Memory>
    ensures { OnOk result (found.new.items ≡ found.old.items ++ (name.entry, value.entry) ∷ []) }
{
    found.push((name, value))?;
    Ok(())
}

/// The members of an object, behind its brace.
#[cycle(reading)]
#[inline(never)]
fn read_members<'v>(
    alloc: Global,
    reader: &mut Reader<'v>,
    depth: usize,
) -> Result<Vec<Member<'v>>, Unread>
    ensures ok { IfOk result (λ found. members (value depth) (length reader.old) reader.old
        ≡ Some (members_view found.items, reader.new)) }
    ensures shorter { OnOk result (length reader.new < length reader.old) }
    ensures bad { result ≡ Err Bad → members (value depth) (length reader.old) reader.old ≡ None }
{
    let mut found = Vec::new(alloc);
    'members: while let Some(key) = reader.next_key()? {
        let member = read_value(alloc, reader, depth)?;
        put(&mut found, key, member)?;
    }
    Ok(found)
}
