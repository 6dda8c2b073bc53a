ghost use Rattle.std.specs.Prelude.{◌≡◌, false, true, length, drop};
ghost use Rattle.pl_texts.specs.Matching.{begins};
ghost use Rattle.std.specs.Option.{option_map};
ghost use Rattle.pl_template.specs.Cutting.{closing, closes, before_closing, is_quoted_behind};
ghost use Rattle.pl_template.specs.Splitting.{split_of};

/// Whether a string is open behind a byte.
fn is_quoted_behind(byte: u8, quoted: bool) -> bool
    ensures { result ≡ is_quoted_behind byte quoted }
{
    if byte == b'\'' { !quoted } else { quoted }
}

/// Whether a text begins with a `}}` that ends an expression.
fn closes(quoted: bool, text: &[u8]) -> bool
    ensures { result ≡ closes quoted text.now }
{
    !quoted && text.starts_with(b"}}")
}

/// How many bytes stand before the first `}}` outside single quotes.
fn count_inside(text: &str) -> Option<usize>
    ensures { result ≡ option_map length (before_closing false text.now) }
{
    let bytes = text.as_bytes();
    let mut quoted = false;
    for (count, byte) in bytes.iter().enumerate() {
        if closes(quoted, &bytes[count..]) {
            return Some(count);
        }
        quoted = is_quoted_behind(*byte, quoted);
    }
    None
}

/// Cuts a text round its first `}}` outside single quotes.
pub fn split_closing(text: &str) -> Option<(&str, &str)>
    ensures { option_map (λ parts. (parts.0.now, parts.1.now)) result ≡ split_of text.now }
{
    let count = count_inside(text)?;
    let (inside, closing) = text.split_at(count);
    Some((inside, skip_closing(closing)))
}

/// What stands behind the `}}` that a text begins with.
fn skip_closing(text: &str) -> &str
    requires { begins text.now closing ≡ true }
    ensures { result.now ≡ drop 2 text.now }
{
    let (_closing, behind) = text.split_at(2);
    behind
}
