use pl_base::Memory;
use std::alloc::Global;

/// The text of lines `COUNT PIECE`: each piece so many times, with nothing between.
pub fn repeated(alloc: Global, lines: &str) -> Result<String, Memory> {
    let mut all = String::new(alloc);
    for line in lines.split('\n') {
        push_repeated(&mut all, line)?;
    }
    Ok(all)
}

fn push_repeated(all: &mut String, line: &str) -> Result<(), Memory> {
    let (count, piece) = line.split_once(' ').unwrap_or(("0", ""));
    for _ in 0..count.parse::<u32>().unwrap_or(0) {
        all.push_str(piece)?;
    }
    Ok(())
}

/// The text that is meant by a case: a picture of a control character (U+2400 to U+241F, U+2421)
/// or of a space (U+2420) stands for that character, and `\u{X}` for the one of that number.
pub fn meant(alloc: Global, text: &str) -> Result<String, Memory> {
    let mut all = String::new(alloc);
    for (index, piece) in text.split("\\u{").enumerate() {
        if index == 0 {
            push_meant(&mut all, piece)?;
        } else {
            push_numbered(&mut all, piece)?;
        }
    }
    Ok(all)
}

fn push_numbered(all: &mut String, piece: &str) -> Result<(), Memory> {
    let (number, rest) = piece.split_once('}').unwrap_or(("", piece));
    all.push(numbered(number))?;
    push_meant(all, rest)
}

fn numbered(digits: &str) -> char {
    match u32::from_str_radix(digits, 16) {
        Ok(number) => char::from_u32(number).unwrap_or('?'),
        Err(_) => '?',
    }
}

fn push_meant(all: &mut String, text: &str) -> Result<(), Memory> {
    for character in text.chars() {
        all.push(pictured(character))?;
    }
    Ok(())
}

/// The character that a picture stands for.
fn pictured(character: char) -> char {
    match character {
        '\u{2400}'..='\u{2420}' => char::from((character as u32 - 0x2400) as u8),
        '\u{2421}' => '\x7f',
        _ => character,
    }
}
