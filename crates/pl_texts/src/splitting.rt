ghost use Rattle.std.specs.Prelude.{◌≡◌, ℕ, [], ◌∷◌, ◌++◌, string_bytes, IfOk, OnOk};
ghost use Rattle.std.specs.Ordering.{nat_cmp};
ghost use Rattle.std.specs.BTreeSet.{contains};
ghost use Rattle.pl_texts.specs.Bound.{all_bounded};
ghost use Rattle.pl_texts.specs.Gives.{Gives};
ghost use Rattle.pl_texts.specs.Pieces.{pieces, is_of};

use crate::bound::LONGEST_TEXT;
use crate::fault::TextFault;
use pl_base::{List, Memory, Text};
use std::alloc::Global;
use std::collections::BTreeSet;

/// The pieces of the text between the characters of `separators`, empty pieces too. TooLong where a
/// piece has more than 65,536 bytes.
pub fn split(alloc: Global, text: &Text, separators: &Text) -> Result<List<Text>, TextFault>
    ensures { Gives result (all_bounded (pieces text.now separators.now)) }
{
    split_at_any(alloc, text.as_str(), separators.as_str())
}

fn split_at_any(alloc: Global, text: &str, separators: &str) -> Result<List<Text>, TextFault>
    ensures { Gives result (all_bounded (pieces text.now separators.now)) }
{
    let separating = characters_of(alloc, separators)?;
    let mut pieces = List::new(alloc);
    let mut piece = String::new(alloc);
    for character in text.chars() {
        if separating.contains(&character) {
            push_piece(&mut pieces, piece)?;
            piece = String::new(alloc);
        } else {
            if piece.len() + character.len_utf8() > LONGEST_TEXT {
                return Err(TextFault::TooLong);
            }
            piece.push(character)?;
        }
    }
    push_piece(&mut pieces, piece)?;
    Ok(pieces)
}

fn push_piece(pieces: &mut List<Text>, piece: String) -> Result<(), Memory>
    ensures { OnOk result (pieces.new ≡ pieces.old ++ string_bytes piece ∷ []) }
{
    pieces.push(Text::from_string(piece))?;
    Ok(())
}

/// The characters that the text has.
fn characters_of(alloc: Global, text: &str) -> Result<BTreeSet<char>, Memory>
    ensures { IfOk result (λ set. (character : ℕ) → contains nat_cmp set character ≡
        is_of text.now character) }
{
    let mut set = BTreeSet::new(alloc);
    for character in text.chars() {
        set.insert(character)?;
    }
    Ok(set)
}
