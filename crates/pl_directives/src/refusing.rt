ghost use Rattle.std.specs.Prelude.{◌≡◌, IfOk};
ghost use Rattle.pl_directives.specs.Complaints.{complaint, refused};
ghost use Rattle.pl_directives.specs.Counting.{counted, entered};
ghost use Rattle.pl_directives.specs.Gives.{Gives};

use crate::fault::{Complaint, ExpandFault, ExpandProblem};
use pl_base::{ExactCopy, Memory, Place};
use std::alloc::Global;

/// How many nodes an expansion may count.
pub const MOST_NODES: u32 = 100_000;

/// What is wrong, at a place.
pub fn complain(alloc: Global, problem: ExpandProblem, place: &Place) -> Result<Complaint, Memory>
    ensures { IfOk result (λ made. made ≡ complaint problem place.now) }
{
    let place = place.copy(alloc)?;
    Ok(Complaint { problem, place })
}

/// The refusal of a node for a problem, at that place. Memory where memory is wanting.
pub fn refuse<T>(alloc: Global, problem: ExpandProblem, place: &Place) -> Result<T, ExpandFault>
    ensures { Gives result (refused problem place.now) }
{
    let first = complain(alloc, problem, place)?;
    Err(ExpandFault::Refused(first))
}

/// So many nodes more, which are met at that place.
pub fn count_more(alloc: Global, place: &Place, more: u32, count: u32) -> Result<u32, ExpandFault>
    ensures { Gives result (counted place.now more count) }
{
    match count.checked_add(more) {
        Some(count) if count <= MOST_NODES => Ok(count),
        _ => {
            let problem = ExpandProblem::TooManyNodes;
            Err(ExpandFault::Refused(complain(alloc, problem, place)?))
        }
    }
}

/// A node of a file is entered.
pub fn enter(alloc: Global, place: &Place, count: u32) -> Result<u32, ExpandFault>
    ensures { Gives result (entered place.now count) }
{
    count_more(alloc, place, 1, count)
}
