ghost use Rattle.std.specs.Prelude.{◌≡◌, ◌≤◌, length, take, drop};
ghost use Rattle.std.specs.List.{prefix_len, list_all};
ghost use Rattle.pl_template.specs.Words.{is_blank, is_in_word, unblanked, first_word};
ghost use Rattle.pl_template.specs.Words.{behind_word};
ghost use Rattle.pl_template.specs.Words.{is_name, begins_name, goes_on_name};

/// Whether a byte is a space, a tab or a line feed.
fn is_blank(byte: u8) -> bool
    ensures { result ≡ is_blank byte }
{
    byte == b' ' || byte == b'\t' || byte == b'\n'
}

/// How many blanks a text begins with.
fn count_blanks(text: &str) -> usize
    ensures value { result ≡ prefix_len is_blank text.now }
    ensures within { result ≤ length text.now }
{
    let bytes = text.as_bytes();
    for (count, byte) in bytes.iter().enumerate() {
        if !is_blank(*byte) {
            return count;
        }
    }
    bytes.len()
}

/// How many bytes stand before the first blank of a text, or all of them.
fn count_word(text: &str) -> usize
    ensures value { result ≡ prefix_len is_in_word text.now }
    ensures within { result ≤ length text.now }
{
    let bytes = text.as_bytes();
    for (count, byte) in bytes.iter().enumerate() {
        if is_blank(*byte) {
            return count;
        }
    }
    bytes.len()
}

/// The text without the blanks that it begins with.
fn unblanked(text: &str) -> &str
    ensures { result.now ≡ unblanked text.now }
{
    let (_blanks, rest) = text.split_at(count_blanks(text));
    rest
}

/// The first word of a text, and what stands behind it without the blanks between.
pub fn split_word(text: &str) -> (&str, &str)
    ensures word { result.0.now ≡ first_word text.now }
    ensures behind { result.1.now ≡ behind_word text.now }
{
    let text = unblanked(text);
    let (word, rest) = text.split_at(count_word(text));
    (word, unblanked(rest))
}

/// Whether a byte begins a name: a letter of ASCII or `_`.
fn begins_name(byte: u8) -> bool
    ensures { result ≡ begins_name byte }
{
    byte.is_ascii_alphabetic() || byte == b'_'
}

/// Whether a byte goes on with a name: a letter or digit of ASCII, or `_`.
fn goes_on_name(byte: u8) -> bool
    ensures { result ≡ goes_on_name byte }
{
    byte.is_ascii_alphanumeric() || byte == b'_'
}

/// Whether all of a name behind its first byte is in place.
fn are_in_name(bytes: &[u8]) -> bool
    ensures { result ≡ list_all goes_on_name bytes.now }
{
    bytes.iter().all(|byte| goes_on_name(*byte))
}

/// Whether a text is the name of a loop: a letter or `_`, and then letters, digits and `_`.
pub fn is_name(text: &str) -> bool
    ensures { result ≡ is_name text.now }
{
    match text.as_bytes() {
        [first, rest @ ..] => begins_name(*first) && are_in_name(rest),
        [] => false,
    }
}
