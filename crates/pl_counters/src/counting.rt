//! What is counted of a list.

ghost use Rattle.std.specs.Prelude.{◌≡◌, ◌<◌, ◌-◌, ℕ, [], length, slice_index_or};
ghost use Rattle.pl_counters.specs.Counting.{has_ended, left_of, times};

use pl_base::List;

/// Whether a node has ended.
pub(crate) fn has_ended(ended: &[bool], node: u32) -> bool
    ensures { result ≡ has_ended ended.now node }
{
    match ended.get(node as usize) {
        Some(is) => *is,
        None => false,
    }
}

/// How many of these nodes haven't ended.
pub(crate) fn left_of(ended: &[bool], waits: &[u32]) -> usize
    ensures { result ≡ left_of ended.now waits.now }
{
    let mut left = 0;
    for node in waits {
        if !has_ended(ended, *node) {
            left += 1;
        }
    }
    left
}

/// How often a node stands among these.
fn times(node: u32, waits: &[u32]) -> usize
    ensures { result ≡ times node waits.now }
{
    let mut count = 0;
    for other in waits {
        if *other == node {
            count += 1;
        }
    }
    count
}

/// Lowers each counter by how often a node stands in its list.
pub(crate) fn lower(lists: &[List<u32>], node: u32, left: &mut [usize])
    requires { length left.old ≡ length lists.now }
    ensures { (at : ℕ) → at < length lists.now → slice_index_or left.new at 0
        ≡ slice_index_or left.old at 0 - times node (slice_index_or lists.now at []) }
{
    for at in 0..lists.len() {
        let count = times(node, lists[at].as_slice());
        left[at] = left[at].saturating_sub(count);
    }
}
