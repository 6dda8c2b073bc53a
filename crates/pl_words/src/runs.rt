//! The value of `--runs`.

ghost use Rattle.std.specs.Prelude.{◌≡◌};
ghost use Rattle.pl_words.specs.Runs.{is_plain, runs_in, within};

/// How many runs may be rehearsed.
const MOST_RUNS: u64 = 4096;

/// The number from 1 to 4096 whose decimal digits a text is, without a leading zero.
pub(crate) fn runs_in(text: &str) -> Option<u64>
    ensures { result ≡ runs_in text.now }
{
    if !is_plain(text.as_bytes()) {
        return None;
    }
    match text.parse() {
        Ok(number) => within(number),
        Err(_) => None,
    }
}

/// Whether neither a `+` nor a `0` stands in front of a text.
fn is_plain(text: &[u8]) -> bool
    ensures { result ≡ is_plain text.now }
{
    match text {
        [b'+', ..] => false,
        [b'0', ..] => false,
        _ => true,
    }
}

/// A number that isn't above the most.
fn within(number: u64) -> Option<u64>
    ensures { result ≡ within number }
{
    if number <= MOST_RUNS {
        Some(number)
    } else {
        None
    }
}
