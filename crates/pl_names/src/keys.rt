ghost use Rattle.std.specs.Prelude.{◌≡◌, ◌≤◌, ◌*◌, ◌/◌, length, take};
ghost use Rattle.pl_names.specs.Bytes.{ends_badly, goes_wrong, goes_wrong_in, slash};
ghost use Rattle.pl_names.specs.Names.{are_segments, has_segments, is_segment};
ghost use Rattle.pl_names.specs.Names.{is_key, is_path, is_ref, is_repository};

use crate::names::is_plain;
use pl_base::FileKey;

/// Whether a text names a repository: from 1 to 64 bytes without control characters. It takes no
/// memory.
pub fn is_repository(text: &str) -> bool
    ensures { result ≡ is_repository text.now }
{
    is_plain(64, text)
}

/// Whether a text is a ref: at most 128 bytes that begin with `refs/`. It takes no memory.
pub fn is_ref(text: &str) -> bool
    ensures { result ≡ is_ref text.now }
{
    text.len() <= 128 && text.starts_with("refs/")
}

/// Whether a text is the path of a file: at most 256 bytes, a `/` at the front, and no segment that
/// is empty, `.` or `..`. It takes no memory.
pub fn is_path(text: &str) -> bool
    ensures { result ≡ is_path text.now }
{
    text.len() <= 256 && has_segments(text)
}

/// Whether a text is slashes, each with a segment behind it.
fn has_segments(text: &str) -> bool
    ensures { result ≡ has_segments text.now }
{
    match text.strip_prefix('/') {
        Some(rest) => are_segments(rest),
        None => false,
    }
}

/// Whether what stands between the slashes of a text are segments. Where it has more than 18 bytes
/// it is told by pieces of them.
fn are_segments(text: &str) -> bool
    ensures { result ≡ are_segments text.now }
{
    let bytes = text.as_bytes();
    if bytes.len() > 18 {
        return !go_wrong(bytes);
    }
    text.split('/').all(|segment| is_segment(segment))
}

/// Whether a segment is neither empty nor `.` nor `..`.
fn is_segment(text: &str) -> bool
    ensures { result ≡ is_segment text.now }
{
    !matches!(text, "" | "." | "..")
}

/// Whether a segment of these bytes, which are at least 19 and stand behind a slash, is empty or `.`
/// or `..`: the pieces of 16 of them and the last 16 are looked at, of which some may be in a piece
/// too, and the end.
fn go_wrong(bytes: &[u8]) -> bool
    requires { 19 ≤ length bytes.now }
    ensures { result ≡ goes_wrong slash slash slash bytes.now }
{
    let (_, end) = bytes.split_at(bytes.len() - 19);
    match end {
        [third, second, first, piece @ ..] => {
            pieces_go_wrong(bytes)
                | goes_wrong_in(*third, *second, *first, piece)
                | ends_badly(piece[13], piece[14], piece[15])
        }
        _ => false,
    }
}

/// Whether such a segment ends at a slash among the bytes in pieces of 16, without those behind the
/// last piece.
fn pieces_go_wrong(bytes: &[u8]) -> bool
    ensures { result ≡ goes_wrong_in slash slash slash (take (16 * (length bytes.now / 16)) bytes.now) }
{
    let mut first = b'/';
    let mut second = b'/';
    let mut third = b'/';
    let mut wrong = false;
    for at in 0..bytes.len() / 16 {
        let piece = &bytes[16 * at..16 * at + 16];
        wrong = wrong | goes_wrong_in(third, second, first, piece);
        third = piece[13];
        second = piece[14];
        first = piece[15];
    }
    wrong
}

/// Whether such a segment ends at a slash among these bytes, where these three stand before them.
/// All are looked at, whatever is found, so that the bytes of a piece are looked at in one step.
fn goes_wrong_in(third: u8, second: u8, first: u8, bytes: &[u8]) -> bool
    ensures { result ≡ goes_wrong_in third second first bytes.now }
{
    let mut third = third;
    let mut second = second;
    let mut first = first;
    let mut wrong = false;
    for byte in bytes {
        wrong = wrong | ((*byte == b'/') & ends_badly(third, second, first));
        third = second;
        second = first;
        first = *byte;
    }
    wrong
}

/// Whether the segment that ends with these three bytes, the last one at the end, is empty or `.` or
/// `..`.
fn ends_badly(third: u8, second: u8, first: u8) -> bool
    ensures { result ≡ ends_badly third second first }
{
    (first == b'/') | ((first == b'.') & ((second == b'/') | ((second == b'.') & (third == b'/'))))
}

/// Whether a key of a file keeps the rules of repositories, refs and paths. It takes no memory.
pub fn is_key(key: &FileKey) -> bool
    ensures { result ≡ is_key key.now }
{
    is_repository(key.repo.as_str()) && is_ref(key.git_ref.as_str()) && is_path(key.path.as_str())
}
