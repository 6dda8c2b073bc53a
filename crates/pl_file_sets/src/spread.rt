//! How keys are spread over the numbers below 2 ^ 32.

ghost use Rattle.std.specs.Prelude.{◌≡◌, ◌<◌};
ghost use Rattle.pl_file_sets.specs.Spread.{is_high, spread_by, spread_of};

use pl_base::FileKey;

/// Where bytes lead from a number.
fn spread_by(start: u32, bytes: &[u8]) -> u32
    ensures { result ≡ spread_by start bytes.now }
{
    let mut spread = start;
    for byte in bytes {
        spread = spread
            .wrapping_add(u32::from(*byte))
            .wrapping_mul(16_777_619);
    }
    spread
}

/// The number of a key: where its repository, its ref and its path lead from 0.
pub(crate) fn spread_of(key: &FileKey) -> u32
    ensures { result ≡ spread_of key.now }
{
    let repo = spread_by(0, key.repo.as_bytes());
    let git_ref = spread_by(repo, key.git_ref.as_bytes());
    spread_by(git_ref, key.path.as_bytes())
}

/// Whether a number has this bit.
pub(crate) fn is_high(bit: u32, spread: u32) -> bool
    requires { bit < 32 }
    ensures { result ≡ is_high bit spread }
{
    (spread >> bit) % 2 == 1
}
