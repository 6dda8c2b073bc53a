ghost use Rattle.std.specs.Prelude.{◌≡◌};
ghost use Rattle.pl_line.specs.Keys as spec;

use pl_base::Text;

/// A key's number. Its low digits are spread over the high ones, since keys that follow one another
/// would fill the tree of numbers from one side.
#[tactic(auto, unfolding(crate::specs::Keys::number_from, crate::specs::Keys::spread))]
pub(crate) fn number_of(key: &Text) -> u64
    ensures { result ≡ spec.number_of key.now }
{
    let mut number: u64 = 0;
    for byte in key.as_bytes() {
        number = (number * 257 + u64::from(*byte)) % (1 << 54);
    }
    number % (1 << 27) * 0x9_e377_9b97 % (1 << 36) * (1 << 27) + number / (1 << 27)
}
