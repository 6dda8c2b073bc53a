//! Answers as one line, which says each character that can't be seen as a case may.

use crate::answers::Answers;
use std::alloc::Global;

/// Writes a text in which a picture of a control character (U+2400 to U+241F, U+2421) stands for
/// that character, and `\u{X}` for one that can't be seen.
pub fn push_shown(alloc: Global, out: &mut Answers, text: &str) {
    for character in text.chars() {
        push_character(alloc, out, character);
    }
}

fn push_character(alloc: Global, out: &mut Answers, character: char) {
    match character {
        '\0'..='\x1f' => out.character(picture(character as u8)),
        '\x7f' => out.character('\u{2421}'),
        '\u{80}'..='\u{a0}'
        | '\u{2000}'..='\u{200f}'
        | '\u{2028}'..='\u{202f}'
        | '\u{3000}'
        | '\u{d7ff}'..='\u{f8ff}'
        | '\u{feff}'
        | '\u{10ffff}' => push_number(alloc, out, character as u32),
        _ => out.character(character),
    }
}

fn push_number(alloc: Global, out: &mut Answers, number: u32) {
    match format!(in alloc; "\\u{{{number:x}}}") {
        Ok(told) => out.push(told.as_str()),
        Err(_) => out.fail(),
    }
}

fn picture(control: u8) -> char {
    char::from_u32(0x2400 + u32::from(control)).unwrap_or('?')
}
