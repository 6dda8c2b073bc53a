ghost use Rattle.std.specs.Prelude.{◌≡◌, ◌≤◌, ◌==◌, false, not, length, take, drop, None};
ghost use Rattle.std.specs.Prelude.{encode_utf8_all};
ghost use Rattle.std.specs.List.{position_or_len, last_or};
ghost use Rattle.pl_line.specs.Characters.{all_of};
ghost use Rattle.pl_reading.specs.Bytes as bytes;
ghost use Rattle.pl_line.specs.Rows as rows;
ghost use Rattle.pl_line.specs.Scanning as spec;

use crate::characters::Characters;

/// Whether a character is a space or a tab.
pub fn is_blank(character: char) -> bool
    ensures { result ≡ bytes.is_blank character }
{
    character == ' ' || character == '\t'
}

/// Whether a character is a control character below U+0020 other than tab.
pub fn is_control(character: char) -> bool
    ensures { result ≡ rows.is_control character }
{
    character < ' ' && character != '\t'
}

/// How many spaces a text begins with.
pub fn spaces_len(text: Characters) -> usize
    ensures value { result ≡ position_or_len (λ c. not (c == 32)) (all_of text.entry) }
    ensures within { result ≤ length (all_of text.entry) }
{
    let mut rest = text;
    let mut len = 0;
    while let Some(' ') = rest.next() {
        len += 1;
    }
    len
}

/// How many blanks a text begins with.
pub fn blanks_len(text: Characters) -> usize
    ensures value { result ≡ position_or_len (λ c. not (bytes.is_blank c)) (all_of text.entry) }
    ensures within { result ≤ length (all_of text.entry) }
{
    let mut rest = text;
    let mut len = 0;
    while let Some(c) = rest.next() {
        if !is_blank(c) {
            return len;
        }
        len += 1;
    }
    len
}

/// Whether a text begins with this character.
pub fn begins_with(character: char, text: Characters) -> bool
    ensures { result ≡ bytes.begins_with character (all_of text.entry) }
{
    match text.first() {
        Some(first) => first == character,
        None => false,
    }
}

/// Whether this character stands behind so many of a text.
pub fn stands_at(character: char, len: usize, text: Characters) -> bool
    requires { len ≤ length (all_of text) }
    ensures { result ≡ bytes.begins_with character (drop len (all_of text.entry)) }
{
    len < text.len() && begins_with(character, text.behind(len))
}

/// Whether an indicator before this text is one: a blank or the line's end stands behind it.
pub fn ends_word(text: Characters, whole: bool) -> bool
    ensures { result ≡ spec.ends_word whole (all_of text.entry) }
{
    match text.first() {
        Some(first) => is_blank(first),
        None => whole,
    }
}

/// How many characters a plain scalar takes, blanks behind it counted.
pub fn plain_len(text: Characters, whole: bool) -> usize
    ensures value { result ≡ spec.plain_len whole false (all_of text.entry) }
    ensures within { result ≤ length (all_of text.entry) }
{
    let mut rest = text;
    let mut len = 0;
    let mut behind_blank = false;
    while let Some(c) = rest.next() {
        if c == ':' && ends_word(rest, whole) || c == '#' && behind_blank {
            return len;
        }
        behind_blank = is_blank(c);
        len += 1;
    }
    len
}

/// How many characters stand before the blanks at a text's end.
fn content_len(text: Characters) -> usize
    ensures value { result ≡ spec.content_len (all_of text.entry) }
    ensures within { result ≤ length (all_of text.entry) }
{
    let mut rest = text;
    let mut at = 0;
    let mut len = 0;
    while let Some(c) = rest.next() {
        at += 1;
        if !is_blank(c) {
            len = at;
        }
    }
    len
}

/// Whether a text ends with a blank.
fn ends_with_blank(text: &str) -> bool
    ensures { result ≡ spec.ends_with_blank (last_or None text.now) }
{
    match text.as_bytes().last() {
        Some(last) => is_blank(char::from(*last)),
        None => false,
    }
}

/// The first so many characters of a text, without the blanks at their end.
pub fn content(text: Characters, len: usize) -> &str
    requires { len ≤ length (all_of text) }
    ensures { result.now ≡ encode_utf8_all (take (spec.content_len (take len (all_of text.entry)))
        (all_of text.entry)) }
{
    let front = text.front(len);
    let whole = front.as_str();
    if ends_with_blank(whole) {
        text.front(content_len(front)).as_str()
    } else {
        whole
    }
}

/// Whether a character begins no node.
pub fn is_stray(character: char) -> bool
    ensures { result ≡ spec.is_stray character }
{
    matches!(character, ',' | ']' | '}' | '#' | '%' | '@' | '`')
}
