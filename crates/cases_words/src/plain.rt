use pl_base::Memory;
use std::alloc::Global;

/// Adds what a character stands for: a picture of a control character for that one, `␠` for a
/// space, `␥` for U+009F, `␦` for the byte 255, and any other for itself.
fn push_character(bytes: &mut Vec<u8>, character: char) -> Result<(), Memory> {
    let code = character as u32;
    match character {
        '\u{2400}'..='\u{2420}' => bytes.push((code - 0x2400) as u8)?,
        '\u{2421}' => bytes.push(127)?,
        '\u{2425}' => bytes.extend_from_slice("\u{9f}".as_bytes())?,
        '\u{2426}' => bytes.push(255)?,
        _ => {
            let mut buffer = [0; 4];
            bytes.extend_from_slice(character.encode_utf8(&mut buffer).as_bytes())?;
        }
    }
    Ok(())
}

fn push_plain(bytes: &mut Vec<u8>, text: &str) -> Result<(), Memory> {
    for character in text.chars() {
        push_character(bytes, character)?;
    }
    Ok(())
}

/// Adds a text that has `PART*TIMES}` behind its front.
fn push_repeated(bytes: &mut Vec<u8>, front: &str, rest: &str) -> Result<(), Memory> {
    let (inner, end) = rest.split_once('}').unwrap_or((rest, ""));
    let (part, times) = inner.rsplit_once('*').unwrap_or((inner, ""));
    push_plain(bytes, front)?;
    for _ in 0..times.parse::<u16>().unwrap_or(0) {
        push_plain(bytes, part)?;
    }
    push_plain(bytes, end)
}

/// The bytes that a line of a case stands for.
pub fn plain(alloc: Global, line: &str) -> Result<Vec<u8>, Memory> {
    let mut bytes = Vec::new(alloc);
    match line.split_once('{') {
        Some((front, rest)) => push_repeated(&mut bytes, front, rest)?,
        None => push_plain(&mut bytes, line)?,
    }
    Ok(bytes)
}
