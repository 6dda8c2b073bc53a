ghost use Rattle.std.specs.Prelude.{◌≡◌, ◌∷◌, ◌++◌, ◌<◌, length};
ghost use Rattle.pl_bundle.specs.Bundles.{content, lines_of};
ghost use Rattle.pl_bundle.specs.Cuts.{IsCut};

use memchr::memchr;

/// What stands before the first such byte, and what stands behind it.
pub(crate) fn cut(mark: u8, bytes: &[u8]) -> Option<(&[u8], &[u8])>
    ensures { IsCut mark bytes.now result }
{
    let at = memchr(mark, bytes)?;
    Some((&bytes[..at], &bytes[at + 1..]))
}

/// The first line of bytes, with its line feed where it has one, and what stands behind it.
pub(crate) fn first_line(bytes: &[u8]) -> (&[u8], &[u8])
    requires { 0 < length bytes.now }
    ensures lines { lines_of bytes.now ≡ result.0.now ∷ lines_of result.1.now }
    ensures whole { bytes.now ≡ result.0.now ++ result.1.now }
    ensures some { 0 < length result.0.now }
{
    match cut(b'\n', bytes) {
        Some((line, _rest)) => bytes.split_at(line.len() + 1),
        None => bytes.split_at(bytes.len()),
    }
}

/// A line without its line feed.
pub(crate) fn content(line: &[u8]) -> &[u8]
    ensures { result.now ≡ content line.now }
{
    match cut(b'\n', line) {
        Some((content, _rest)) => content,
        None => line,
    }
}
