ghost use Rattle.std.specs.Prelude.{◌≡◌, ◌++◌, ◌∷◌, decimal, flat_map, IfOk, OnOk};
ghost use Rattle.pl_report.specs.Places.{and_word, key_text, place_text, refusal_line};

use itoa::Buffer;
use pl_base::{FileKey, List, Memory, Place, Refusal, Text};
use std::alloc::Global;

/// Puts a word behind a text, parted by a space. Memory where memory is wanting; then the space may
/// stand there alone.
pub fn push_word(text: &mut Text, word: &str) -> Result<(), Memory>
    ensures { OnOk result (text.new ≡ text.old ++ and_word word.now) }
{
    text.push_str(" ")?;
    text.push_str(word)
}

/// Puts a number behind a text, parted by a colon.
fn push_number(text: &mut Text, number: u32) -> Result<(), Memory>
    ensures { OnOk result (text.new ≡ text.old ++ 58 ∷ decimal number) }
{
    let mut digits = Buffer::new();
    text.push_str(":")?;
    text.push_str(digits.format(number))
}

/// Puts a file's key behind a text, as `REPO REF PATH`. Memory where memory is wanting; then a
/// beginning of it may stand there.
pub fn push_key(text: &mut Text, key: &FileKey) -> Result<(), Memory>
    ensures { OnOk result (text.new ≡ text.old ++ key_text key.now) }
{
    text.push_str(key.repo.as_str())?;
    push_word(text, key.git_ref.as_str())?;
    push_word(text, key.path.as_str())
}

/// Puts a place behind a text, as `REPO REF PATH:LINE:COL`. Memory where memory is wanting; then a
/// beginning of it may stand there.
pub fn push_place(text: &mut Text, place: &Place) -> Result<(), Memory>
    ensures { OnOk result (text.new ≡ text.old ++ place_text place.now) }
{
    push_key(text, &place.file)?;
    push_number(text, place.line)?;
    push_number(text, place.col)
}

/// Puts details behind a text, each behind a space.
fn push_details(text: &mut Text, details: &List<Text>) -> Result<(), Memory>
    ensures { OnOk result (text.new ≡ text.old ++ flat_map and_word details.now) }
{
    for detail in details.as_slice() {
        push_word(text, detail.as_str())?;
    }
    Ok(())
}

/// A refusal as its line: `refused CODE REPO REF PATH:LINE:COL`, each detail behind a space, and a
/// line feed. Memory where memory is wanting.
pub fn refusal_line(alloc: Global, refusal: &Refusal) -> Result<Text, Memory>
    ensures { IfOk result (λ line. line ≡ refusal_line refusal.now) }
{
    let mut line = Text::from_str(alloc, "refused")?;
    push_word(&mut line, refusal.code.as_str())?;
    line.push_str(" ")?;
    push_place(&mut line, &refusal.place)?;
    push_details(&mut line, &refusal.detail)?;
    line.push_str("\n")?;
    Ok(line)
}
