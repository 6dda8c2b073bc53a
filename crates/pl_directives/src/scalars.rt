ghost use Rattle.std.specs.Prelude.{◌≡◌, Result as Answer, IfOk};
ghost use Rattle.pl_base.specs.declared.value.MarkedNode.{MarkedNode as Marked};
ghost use Rattle.pl_frame.specs.Gives as frames;
ghost use Rattle.pl_frame.specs.declared.problem.ExpressionProblem.{ExpressionProblem as Problem};
ghost use Rattle.pl_directives.specs.Gives.{Gives};
ghost use Rattle.pl_directives.specs.Scalars.{problem_of, told_at, value_at, truth_at, one_more};
ghost use Rattle.pl_directives.specs.Scalars.{counted_value_at, piece_behind, pieces_behind};
ghost use Rattle.pl_directives.specs.Scalars.{plain_scalar, joined_scalar, scalar_value};
ghost use Rattle.pl_directives.specs.Counting.{counted};
ghost use Rattle.pl_frame.specs.Trees.{nodes_in};

use crate::fault::{ExpandFault, ExpandProblem};
use crate::progress::Counted;
use crate::refusing::{MOST_NODES, complain, count_more, enter};
use pl_base::{ExactCopy, List, MarkedNode, Memory, Place, Text, Value};
use pl_expr::{to_bool, to_text};
use pl_frame::{
    ExpressionFault, ExpressionProblem, Frame, count_nodes, expression_at, literal_at, made_at,
};
use pl_template::{Piece, ScalarForm, scalar_form};
use std::alloc::Global;

fn problem_of(problem: ExpressionProblem) -> ExpandProblem
    ensures { result ≡ problem_of problem }
{
    match problem {
        ExpressionProblem::Unparsed(code) => ExpandProblem::Expression(code),
        ExpressionProblem::Undefined(code) => ExpandProblem::Evaluation(code),
    }
}

/// A value, or the problem at a place.
fn told_at(
    alloc: Global,
    place: &Place,
    found: Result<MarkedNode, ExpressionFault>,
) -> Result<MarkedNode, ExpandFault>
    ensures { (meant : Answer Marked Problem) → frames.Gives found meant → Gives result (told_at
        place.now meant) }
{
    match found {
        Ok(node) => Ok(node),
        Err(ExpressionFault::Refused(problem)) => {
            let first = complain(alloc, problem_of(problem), place)?;
            Err(ExpandFault::Refused(first))
        }
        Err(ExpressionFault::Memory) => Err(ExpandFault::Memory),
    }
}

/// The value of an expression in the scalar or key at a place. X12 where its text is none, X13
/// where it has no value.
pub fn value_at(
    alloc: Global,
    frame: &Frame,
    place: &Place,
    text: &Text,
) -> Result<MarkedNode, ExpandFault>
    ensures { Gives result (value_at frame.now place.now text.now) }
{
    let found = expression_at(alloc, frame, place, text);
    told_at(alloc, place, found)
}

/// Whether an expression is true.
pub fn truth_at(
    alloc: Global,
    frame: &Frame,
    place: &Place,
    text: &Text,
) -> Result<bool, ExpandFault>
    ensures { Gives result (truth_at frame.now place.now text.now) }
{
    let node = value_at(alloc, frame, place, text)?;
    Ok(to_bool(&node.value))
}

/// A node, and the count behind its tree.
fn one_more(
    alloc: Global,
    place: &Place,
    count: u32,
    node: MarkedNode,
) -> Result<Counted, ExpandFault>
    ensures { Gives result (one_more place.now count node) }
{
    let count = count_tree(alloc, place, count, &node)?;
    Ok(Counted { node, count })
}

/// The count behind a tree.
#[tactic(auto, using(crate::proofs::Limits::at_most_is, crate::proofs::Limits::counted_past))]
fn count_tree(
    alloc: Global,
    place: &Place,
    count: u32,
    node: &MarkedNode,
) -> Result<u32, ExpandFault>
    ensures { Gives result (counted place.now (nodes_in node.now) count) }
{
    match count_nodes(node, MOST_NODES.saturating_sub(count)) {
        Some(more) => count_more(alloc, place, more, count),
        None => {
            let first = complain(alloc, ExpandProblem::TooManyNodes, place)?;
            Err(ExpandFault::Refused(first))
        }
    }
}

/// The value of an expression, whose nodes are counted.
pub fn counted_value_at(
    alloc: Global,
    frame: &Frame,
    place: &Place,
    text: &Text,
    count: u32,
) -> Result<Counted, ExpandFault>
    ensures { Gives result (counted_value_at frame.now place.now text.now count) }
{
    let node = value_at(alloc, frame, place, text)?;
    frame.keep(&node.value)?;
    one_more(alloc, place, count, node)
}

/// The text of a scalar as far as its pieces are joined, and the count behind them.
#[derive(Drop)]
struct JoinedText {
    text: Text,
    count: u32,
}

/// A piece behind a text, cast to text.
fn join_piece(
    alloc: Global,
    frame: &Frame,
    place: &Place,
    piece: &Piece,
    joined: JoinedText,
) -> Result<JoinedText, ExpandFault>
    ensures { Gives result (piece_behind frame.now place.now piece.now joined) }
{
    let JoinedText { mut text, count } = joined;
    match piece {
        Piece::Literal(literal) => {
            frame.keep_text(literal)?;
            text.push_str(literal.as_str())?;
            Ok(JoinedText { text, count })
        }
        Piece::Expression(inside) => {
            let one = counted_value_at(alloc, frame, place, inside, count)?;
            let more = to_text(alloc, &one.node.value)?;
            frame.keep_text(&more)?;
            text.push_str(more.as_str())?;
            Ok(JoinedText {
                text,
                count: one.count,
            })
        }
    }
}

/// Pieces behind a text, from left to right.
fn join_pieces(
    alloc: Global,
    frame: &Frame,
    place: &Place,
    pieces: &List<Piece>,
    joined: JoinedText,
) -> Result<JoinedText, ExpandFault>
    ensures { Gives result (pieces_behind frame.now place.now pieces.now joined) }
{
    let mut whole = joined;
    for piece in pieces.as_slice() {
        whole = join_piece(alloc, frame, place, piece, whole)?;
    }
    Ok(whole)
}

/// A scalar without an expression.
fn plain_scalar(
    alloc: Global,
    text: &Text,
    frame: &Frame,
    place: &Place,
    count: u32,
) -> Result<Counted, Memory>
    ensures { IfOk result (λ one. one ≡ plain_scalar text.now frame.now place.now count) }
{
    frame.keep_text(text)?;
    let origin = literal_at(alloc, frame, place)?;
    let value = Value::Str(text.copy(alloc)?);
    let node = MarkedNode { origin, value };
    Ok(Counted { node, count })
}

/// A scalar that pieces are joined to.
fn joined_scalar(
    alloc: Global,
    pieces: &List<Piece>,
    frame: &Frame,
    place: &Place,
    count: u32,
) -> Result<Counted, ExpandFault>
    ensures { Gives result (joined_scalar pieces.now frame.now place.now count) }
{
    let text = Text::new(alloc);
    let JoinedText { text, count } = join_pieces(
        alloc,
        frame,
        place,
        pieces,
        JoinedText { text, count },
    )?;
    let origin = made_at(alloc, frame, place)?;
    let value = Value::Str(text);
    let node = MarkedNode { origin, value };
    Ok(Counted { node, count })
}

/// The value of a scalar where it stands: its text where no expression stands in it, that of the
/// one expression that it is, else the joined text. X5 where an expression has no end.
pub fn scalar_value(
    alloc: Global,
    text: &Text,
    frame: &Frame,
    place: &Place,
    count: u32,
) -> Result<Counted, ExpandFault>
    ensures { Gives result (scalar_value text.now frame.now place.now count) }
{
    let count = enter(alloc, place, count)?;
    frame.read_text(text)?;
    match scalar_form(alloc, text)? {
        ScalarForm::Plain => Ok(plain_scalar(alloc, text, frame, place, count)?),
        ScalarForm::Whole(inside) => counted_value_at(alloc, frame, place, &inside, count),
        ScalarForm::Joined(pieces) => joined_scalar(alloc, &pieces, frame, place, count),
        ScalarForm::Unclosed => {
            let first = complain(alloc, ExpandProblem::BadDirective, place)?;
            Err(ExpandFault::Refused(first))
        }
    }
}
