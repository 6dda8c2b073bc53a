ghost use Rattle.std.specs.Prelude.{◌↔◌, IsTrue};
ghost use Rattle.pl_checks.specs.Patterns.{Matches, MatchesEnd};

use pl_base::Text;

/// Whether a pattern matches a ref as a whole. In the pattern each `*` stands for any text, also
/// the empty one, and every other character for itself (Microsoft Learn, Azure Pipelines, "Define
/// approvals and checks", Branch control). It takes no memory, and time in proportion to the
/// pattern's length times the ref's at worst.
pub fn matches(pattern: &Text, git_ref: &Text) -> bool
    ensures { IsTrue result ↔ Matches pattern.now git_ref.now }
{
    let text = git_ref.as_str();
    match pattern.as_str().split_once('*') {
        None => text == pattern.as_str(),
        Some((front, rest)) => match text.strip_prefix(front) {
            Some(after) => matches_end(rest, after),
            None => false,
        },
    }
}

/// Whether a pattern matches the end of a text. Each piece between two stars is sought from where
/// the last one ended, and its first place leaves the most for what follows.
fn matches_end(pattern: &str, text: &str) -> bool
    ensures { IsTrue result ↔ MatchesEnd pattern.now text.now }
{
    let mut wanted = pattern;
    let mut left = text;
    while let Some((piece, rest)) = wanted.split_once('*') {
        match left.split_once(piece) {
            Some((_, after)) => {
                wanted = rest;
                left = after;
            }
            None => return false,
        }
    }
    left.ends_with(wanted)
}
