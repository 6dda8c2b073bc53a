use pl_base::Memory;
use std::alloc::Global;

/// Adds what a character stands for: a picture of a control character for that one, `␠` for a
/// space, `␥` for U+009F, `␦` for the byte 255, and any other for itself.
fn push_character(bytes: &mut Vec<u8>, character: char) -> Result<(), Memory> {
    let code = character as u32;
    match character {
        '\u{2400}'..='\u{2420}' => bytes.push((code - 0x2400) as u8)?,
        '\u{2421}' => bytes.push(127)?,
        '\u{2425}' => bytes.extend_from_slice("\u{9f}".as_bytes())?,
        '\u{2426}' => bytes.push(255)?,
        _ => {
            let mut buffer = [0; 4];
            bytes.extend_from_slice(character.encode_utf8(&mut buffer).as_bytes())?;
        }
    }
    Ok(())
}

fn push_plain(bytes: &mut Vec<u8>, text: &str) -> Result<(), Memory> {
    for character in text.chars() {
        push_character(bytes, character)?;
    }
    Ok(())
}

/// Adds a part so many times, and what stands behind it.
fn push_repeated(bytes: &mut Vec<u8>, piece: &str) -> Result<(), Memory> {
    let (inner, end) = piece.split_once('⟧').unwrap_or((piece, ""));
    let (part, times) = inner.rsplit_once('×').unwrap_or((inner, ""));
    for _ in 0..times.parse::<u32>().unwrap_or(0) {
        push_plain(bytes, part)?;
    }
    push_plain(bytes, end)
}

/// The bytes that a line of a case stands for.
pub fn plain(alloc: Global, line: &str) -> Result<Vec<u8>, Memory> {
    let mut bytes = Vec::new(alloc);
    let (front, rest) = line.split_once('⟦').unwrap_or((line, ""));
    push_plain(&mut bytes, front)?;
    for piece in rest.split('⟦') {
        push_repeated(&mut bytes, piece)?;
    }
    Ok(bytes)
}
