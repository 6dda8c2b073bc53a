//! What is compiled before the turn in which it is used.

ghost use Rattle.std.specs.Prelude.{◌≡◌, ◌<◌, IfOk, IfSome, IsTrue};
ghost use Rattle.pl_opening.specs.Below.pl_compilation.specs.Made.{IsMadeOf};
ghost use Rattle.pl_service.specs.Ahead.{IsCurrent, Stands};

use pl_base::{Memory, Refusal, Shared};
use pl_opening::compiled;
use pl_plan::Compiled;
use pl_snapshots::Snapshot;
use std::alloc::Global;

/// What a call wanted to be compiled when it was asked, and what that is compiled to.
#[derive(Drop)]
pub struct Ahead {
    pub snapshot: Snapshot,
    pub made: Result<Shared<Compiled>, Refusal>,
}

impl Ahead {
    /// Compiles a snapshot. Memory where memory is wanting.
    pub fn of(alloc: Global, snapshot: Snapshot) -> Result<Ahead, Memory>
        ensures snapshot { IfOk result (λ ahead. ahead.snapshot ≡ snapshot) }
        ensures made { IfOk result (λ ahead. IsMadeOf snapshot ahead.made) }
    {
        let made = compiled(alloc, &snapshot)?;
        Ok(Ahead { snapshot, made })
    }
}

// Whether neither the files moved nor the root.
fn is_current(old: &Snapshot, now: &Snapshot) -> bool
    ensures { IsTrue result → IsCurrent old.now now.now }
{
    old.version == now.version && old.version < u64::MAX && old.root == now.root
}

// What was compiled before where that stands, else what a snapshot is compiled to now.
fn made_at(
    alloc: Global,
    snapshot: &Snapshot,
    ahead: Ahead,
) -> Result<Result<Shared<Compiled>, Refusal>, Memory>
    requires { Stands snapshot.now ahead }
    ensures { IfOk result (IsMadeOf snapshot.now) }
{
    let Ahead {
        snapshot: old,
        made,
    } = ahead;
    if is_current(&old, snapshot) {
        Ok(made)
    } else {
        compiled(alloc, snapshot)
    }
}

/// What a snapshot is compiled to: what was compiled before where that stands, else it is compiled
/// now. Memory where memory is wanting.
pub(crate) fn made_of(
    alloc: Global,
    snapshot: &Snapshot,
    ahead: Option<Ahead>,
) -> Result<Result<Shared<Compiled>, Refusal>, Memory>
    requires { IfSome ahead (Stands snapshot.now) }
    ensures { IfOk result (IsMadeOf snapshot.now) }
{
    match ahead {
        Some(ahead) => made_at(alloc, snapshot, ahead),
        None => compiled(alloc, snapshot),
    }
}
