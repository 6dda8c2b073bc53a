ghost use Rattle.std.specs.Prelude.{◌≡◌, IfOk};
ghost use Rattle.pl_base.specs.declared.value.Value.{out-Value};
ghost use Rattle.pl_directives.specs.Gives.{Gives};
ghost use Rattle.pl_directives.specs.Keys.{key_from, key_piece_behind, key_pieces_behind};
ghost use Rattle.pl_directives.specs.Keys.{joined_key};
ghost use Rattle.pl_directives.specs.Keys.{key_by};

use crate::fault::{ExpandFault, ExpandProblem};
use crate::refusing::complain;
use crate::scalars::value_at;
use pl_base::{List, MarkedNode, Origin, Place, Text, Value};
use pl_expr::to_text;
use pl_frame::{Frame, made_at};
use pl_template::{Piece, ScalarForm};
use std::alloc::Global;

/// A key that expressions give, and where it comes from.
#[derive(Drop)]
pub struct MadeKey {
    pub key: Text,
    pub origin: Origin,
}

/// A value as a key. X9 where it is a list or a mapping.
fn key_from(alloc: Global, place: &Place, node: MarkedNode) -> Result<MadeKey, ExpandFault>
    ensures { Gives result (key_from (out-Value node.value) place.now node) }
{
    match &node.value {
        Value::Array(_) | Value::Object(_) => {
            let first = complain(alloc, ExpandProblem::WrongKind, place)?;
            Err(ExpandFault::Refused(first))
        }
        atom => {
            let key = to_text(alloc, atom)?;
            Ok(MadeKey {
                key,
                origin: node.origin,
            })
        }
    }
}

/// A piece of a key behind a text, cast to text.
fn key_piece(
    alloc: Global,
    frame: &Frame,
    place: &Place,
    piece: &Piece,
    before: Text,
) -> Result<Text, ExpandFault>
    ensures { Gives result (key_piece_behind frame.now place.now piece.now before) }
{
    let mut text = before;
    match piece {
        Piece::Literal(literal) => {
            frame.keep_text(literal)?;
            text.push_str(literal.as_str())?;
            Ok(text)
        }
        Piece::Expression(inside) => {
            let node = value_at(alloc, frame, place, inside)?;
            let more = to_text(alloc, &node.value)?;
            frame.keep_text(&more)?;
            text.push_str(more.as_str())?;
            Ok(text)
        }
    }
}

/// The pieces of a key behind a text, from left to right.
fn key_pieces(
    alloc: Global,
    frame: &Frame,
    place: &Place,
    pieces: &List<Piece>,
    before: Text,
) -> Result<Text, ExpandFault>
    ensures { Gives result (key_pieces_behind frame.now place.now pieces.now before) }
{
    let mut whole = before;
    for piece in pieces.as_slice() {
        whole = key_piece(alloc, frame, place, piece, whole)?;
    }
    Ok(whole)
}

/// A key that pieces are joined to, which is made here.
fn joined_key(
    alloc: Global,
    frame: &Frame,
    place: &Place,
    pieces: &List<Piece>,
) -> Result<MadeKey, ExpandFault>
    ensures { Gives result (joined_key pieces.now frame.now place.now) }
{
    let key = key_pieces(alloc, frame, place, pieces, Text::new(alloc))?;
    let origin = made_at(alloc, frame, place)?;
    Ok(MadeKey { key, origin })
}

/// A key that expressions give. What they yield isn't counted.
pub fn key_by(
    alloc: Global,
    form: &ScalarForm,
    frame: &Frame,
    place: &Place,
) -> Result<MadeKey, ExpandFault>
    ensures { Gives result (key_by form.now frame.now place.now) }
{
    match form {
        ScalarForm::Whole(inside) => {
            let node = value_at(alloc, frame, place, inside)?;
            frame.keep(&node.value)?;
            key_from(alloc, place, node)
        }
        ScalarForm::Joined(pieces) => joined_key(alloc, frame, place, pieces),
        ScalarForm::Plain | ScalarForm::Unclosed => {
            let first = complain(alloc, ExpandProblem::BadDirective, place)?;
            Err(ExpandFault::Refused(first))
        }
    }
}
