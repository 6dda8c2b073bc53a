ghost use Rattle.std.specs.Prelude.{◌≡◌, ◌≤◌, ◌*◌, ◌/◌, length, take};
ghost use Rattle.std.specs.Char.{is_control};
ghost use Rattle.std.specs.List.{list_all, list_any};
ghost use Rattle.std.specs.Str.{chars};
ghost use Rattle.pl_names.specs.Bytes.{ends_control, has_control_behind, is_printable};
ghost use Rattle.pl_names.specs.Names.{is_label, is_name, is_plain};

/// Whether a text has from one byte to so many, and no control character (U+0000 to U+001F and
/// U+007F to U+009F). It takes no memory.
pub fn is_plain(most: usize, text: &str) -> bool
    ensures { result ≡ is_plain most text.now }
{
    !text.is_empty() && text.len() <= most && !has_control(text)
}

/// Whether a text is a name: from 1 to 100 bytes without control characters. It takes no memory.
pub fn is_name(text: &str) -> bool
    ensures { result ≡ is_name text.now }
{
    is_plain(100, text)
}

/// Whether a text is the label of a job: at least one byte, without control characters. It takes no
/// memory.
pub fn is_label(text: &str) -> bool
    ensures { result ≡ is_label text.now }
{
    !text.is_empty() && !has_control(text)
}

/// Whether a text has a control character. Where it has more than 16 bytes it is told by pieces of
/// them, where it has more than 8 by two halves, and else, where all are printable ones of ASCII,
/// without reading its characters.
fn has_control(text: &str) -> bool
    ensures { result ≡ list_any is_control (chars text.now) }
{
    let bytes = text.as_bytes();
    if bytes.len() > 16 {
        return have_control(bytes);
    }
    if bytes.len() > 8 {
        return halves_have(bytes);
    }
    if are_printable(bytes) {
        return false;
    }
    text.chars().any(|character| character.is_control())
}

/// Whether bytes are those of ASCII's printable characters, the space among them.
fn are_printable(bytes: &[u8]) -> bool
    ensures { result ≡ list_all is_printable bytes.now }
{
    bytes.iter().all(|byte| is_printable(*byte))
}

fn is_printable(byte: u8) -> bool
    ensures { result ≡ is_printable byte }
{
    32 <= byte && byte <= 126
}

/// Whether a control character ends at one of the bytes, which are at least 17: the pieces of 16 of
/// them and the last 16 are looked at, of which some may be in a piece too.
fn have_control(bytes: &[u8]) -> bool
    requires { 17 ≤ length bytes.now }
    ensures { result ≡ has_control_behind 0 bytes.now }
{
    let (_, end) = bytes.split_at(bytes.len() - 17);
    match end {
        [last, piece @ ..] => pieces_have(bytes) | piece_has(*last, piece),
        [] => false,
    }
}

/// Whether a control character ends at one of the bytes, which are from 9 to 16: the first 8 and the
/// last 8 are looked at, of which some may be in both.
fn halves_have(bytes: &[u8]) -> bool
    requires long { 9 ≤ length bytes.now }
    requires short { length bytes.now ≤ 16 }
    ensures { result ≡ has_control_behind 0 bytes.now }
{
    let (front, _) = bytes.split_at(8);
    let (_, end) = bytes.split_at(bytes.len() - 9);
    match end {
        [last, piece @ ..] => piece_has(0, front) | piece_has(*last, piece),
        [] => false,
    }
}

/// The same of the bytes in pieces of 16, without those behind the last piece.
fn pieces_have(bytes: &[u8]) -> bool
    ensures { result ≡ has_control_behind 0 (take (16 * (length bytes.now / 16)) bytes.now) }
{
    let mut last = 0;
    let mut found = false;
    for at in 0..bytes.len() / 16 {
        let piece = &bytes[16 * at..16 * at + 16];
        found = found | piece_has(last, piece);
        last = piece[15];
    }
    found
}

/// Whether a control character ends at one of these bytes, where this one stands before them. All
/// are looked at, whatever is found, so that the bytes of a piece are looked at in one step.
fn piece_has(before: u8, bytes: &[u8]) -> bool
    ensures { result ≡ has_control_behind before bytes.now }
{
    let mut last = before;
    let mut found = false;
    for byte in bytes {
        found = found | ends_control(last, *byte);
        last = *byte;
    }
    found
}

/// Whether a byte ends a control character, where this one stands before it: one below 32, 127, or
/// behind 194 one below 160.
fn ends_control(last: u8, byte: u8) -> bool
    ensures { result ≡ ends_control last byte }
{
    (byte < 32) | (byte == 127) | ((last == 194) & (byte < 160))
}
