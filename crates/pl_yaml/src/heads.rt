ghost use Rattle.std.specs.Prelude.{◌≡◌, ◌≤◌, [], ◌∷◌, length, IsTrue};
ghost use Rattle.pl_line.specs.Characters.{all_of};
ghost use Rattle.pl_line.specs.Lines.{row};
ghost use Rattle.pl_line.specs.Gives.{Gives};
ghost use Rattle.pl_yaml.specs.Heads as spec;
ghost use Rattle.pl_yaml.specs.Content as content;

use crate::head::Head;
use pl_line::{
    Characters, Line, ReadFault, YamlCode, begins_with, behind, ends_word, fault_at, is_empty,
    is_stray, line_end, plain_len, stands_at,
};

/// Whether this character stands three times at column 1, as a word.
fn is_word(line: &Line, character: char) -> bool
    ensures value { result ≡ spec.is_word (character ∷ character ∷ character ∷ []) (row line.now) }
    ensures within { IsTrue result → 3 ≤ length (all_of line.now.text) }
{
    if line.column != 1 || !begins_with(character, line.text) {
        return false;
    }
    let mut rest = line.text;
    let (Some(_), Some(second), Some(third)) = (rest.next(), rest.next(), rest.next()) else {
        return false;
    };
    second == character && third == character && ends_word(rest, line.whole)
}

/// Whether a line is a marker of documents: `---` or `...` at column 1, as a word.
pub(crate) fn is_marker(line: &Line) -> bool
    ensures { result ≡ spec.is_marker (row line.now) }
{
    if line.column != 1 {
        return false;
    }
    match line.text.first() {
        Some('-') => is_word(line, '-'),
        Some('.') => is_word(line, '.'),
        _ => false,
    }
}

/// Whether `---` stands alone on a line, perhaps before a comment.
pub(crate) fn is_start(line: &Line) -> bool
    ensures { result ≡ spec.is_start (row line.now) }
{
    is_word(line, '-') && is_empty(&behind(line, 3))
}

/// What begins at a line's column.
pub(crate) fn head_of(line: &Line) -> Head
    ensures value { result ≡ spec.head_of (row line.now) }
    ensures within { spec.head_len result ≤ length (all_of line.now.text) }
{
    head_at(line.text, line.whole)
}

/// Why nothing is read at such a head, where a node begins.
pub(crate) fn refusal(head: Head) -> YamlCode
    ensures { result ≡ spec.refusal head }
{
    match head {
        Head::Question => YamlCode::ComplexKey,
        Head::Anchor => YamlCode::Anchor,
        Head::Tag => YamlCode::Tag,
        _ => YamlCode::NoEntry,
    }
}

/// Why nothing is read at such a head, where a value must follow on its line.
pub(crate) fn refusal_inline(head: Head) -> YamlCode
    ensures { result ≡ spec.refusal_inline head }
{
    match head {
        Head::Anchor => YamlCode::Anchor,
        Head::Tag => YamlCode::Tag,
        _ => YamlCode::NoEntry,
    }
}

/// Refuses a tab before a line's content, and a marker of documents.
pub(crate) fn stands(line: &Line) -> Result<(), ReadFault>
    ensures { Gives (λ done. done) result (content.stands (row line.now)) }
{
    if begins_with('\t', line.text) {
        return Err(fault_at(YamlCode::TabIndent, line));
    }
    if is_marker(line) {
        return Err(fault_at(YamlCode::Documents, line));
    }
    Ok(())
}

/// The same before any content, where `%` at column 1 would begin a directive.
pub(crate) fn begins(line: &Line) -> Result<(), ReadFault>
    ensures { Gives (λ done. done) result (content.begins (row line.now)) }
{
    if line.column == 1 && begins_with('%', line.text) {
        return Err(fault_at(YamlCode::Documents, line));
    }
    stands(line)
}

/// Refuses content behind so many of a line's characters.
pub(crate) fn closed(line: &Line, len: usize) -> Result<(), ReadFault>
    requires { len ≤ length (all_of line.now.text) }
    ensures { Gives (λ done. done) result (content.closed len (row line.now)) }
{
    let after = line.text.behind(len);
    let rest = behind(line, len);
    if rest.text.is_empty() || ends_word(after, false) && begins_with('#', rest.text) {
        line_end(line)
    } else {
        Err(fault_at(YamlCode::NoEntry, &rest))
    }
}

/// What begins with a text.
#[tactic(auto, unfolding(crate::specs::Heads::head_at))]
fn head_at(text: Characters, whole: bool) -> Head
    ensures value { result ≡ spec.head_at whole (all_of text.entry) }
    ensures within { spec.head_len result ≤ length (all_of text.entry) }
{
    let mut rest = text;
    let Some(first) = rest.next() else {
        return Head::Stray;
    };
    match first {
        '-' if ends_word(rest, whole) => Head::Dash,
        '?' if ends_word(rest, whole) => Head::Question,
        '&' | '*' => Head::Anchor,
        '!' => Head::Tag,
        '\'' | '"' => Head::Quote,
        '[' | '{' => Head::Flow,
        '|' | '>' => Head::Block,
        c if is_stray(c) || c == ':' && ends_word(rest, whole) => Head::Stray,
        _ => plain_head(text, plain_len(text, whole)),
    }
}

/// A plain scalar that takes so many characters, as a key or not.
fn plain_head(text: Characters, len: usize) -> Head
    requires { len ≤ length (all_of text) }
    ensures value { result ≡ spec.plain_head (all_of text.entry) len }
    ensures within { spec.head_len result ≤ length (all_of text.entry) }
{
    if stands_at(':', len, text) {
        Head::Key(len)
    } else {
        Head::Word(len)
    }
}
