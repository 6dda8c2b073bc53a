ghost use Rattle.std.specs.Prelude.{Ok};
ghost use Rattle.pl_compilation.specs.Made.{IsMadeOf};
ghost use Rattle.pl_plan.specs.declared.plan.Compiled.{Compiled};
ghost use Rattle.pl_cond.specs.Below.pl_results.specs.Nodes.{CanRun};
ghost use Rattle.pl_snapshots.specs.declared.snapshot.Snapshot.{Snapshot};

/// The plan of what was compiled can run: what its stages and jobs wait for are places of its lists
/// and has no cycle, and its places are numbers of 32 bits.
pub fn compilations_can_run()
    ensures { (snapshot : Snapshot) (compiled : Compiled) → IsMadeOf snapshot (Ok compiled)
        → CanRun compiled.plan }
{}
