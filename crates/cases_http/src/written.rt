use crate::answers::Answers;
use std::alloc::Global;

/// Writes a line of these two texts.
pub fn write_line(out: &mut Answers, front: &str, rest: &str) {
    out.push(front);
    out.push(rest);
    out.push("\n");
}

/// Writes a number.
pub fn put_number(alloc: Global, out: &mut Answers, number: u64) {
    match number.to_string(alloc) {
        Ok(digits) => out.push(digits.as_str()),
        Err(_) => out.fail(),
    }
}

/// Writes a character, a control character by its picture.
fn put_character(out: &mut Answers, character: char) {
    let shown = match character {
        '\u{0}'..='\u{1f}' => char::from_u32(character as u32 + 0x2400).unwrap_or(character),
        '\u{7f}' => '␡',
        _ => character,
    };
    let mut buffer = [0; 4];
    out.push(shown.encode_utf8(&mut buffer));
}

/// Writes a text, its control characters by their pictures.
pub fn put_shown(out: &mut Answers, text: &str) {
    for character in text.chars() {
        put_character(out, character);
    }
}

/// Writes a space and a text in quotes; of a text of over 300 bytes how many bytes it has.
pub fn put_text(alloc: Global, out: &mut Answers, text: &str) {
    out.push(" ");
    if text.len() > 300 {
        put_number(alloc, out, text.len() as u64);
        out.push(" bytes");
        return;
    }
    out.push("\"");
    put_shown(out, text);
    out.push("\"");
}

/// Writes a space and a word.
pub fn put_word(out: &mut Answers, word: &str) {
    out.push(" ");
    out.push(word);
}

/// Writes a space and a number.
pub fn put_count(alloc: Global, out: &mut Answers, number: u64) {
    out.push(" ");
    put_number(alloc, out, number);
}
