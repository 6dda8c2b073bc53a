ghost use Rattle.std.specs.Prelude.{◌≡◌, Some, IfOk};
ghost use Rattle.std.specs.List.{AllByRecursion};
ghost use Rattle.pl_base.specs.declared.place.FileKey.{FileKey as Key};
ghost use Rattle.pl_directives.specs.Gives.{Gives};
ghost use Rattle.pl_eval_laws.specs.Marks.{marks_of};
ghost use Rattle.pl_eval_laws.specs.Trees.{origins_of};
ghost use Rattle.pl_expand.specs.Tree.{expansion};
ghost use Rattle.pl_provenance.specs.Closure.{ArePairsFromClosure};
ghost use Rattle.pl_provenance.specs.Known.{IsKnown, home_in};
ghost use Rattle.pl_provenance.specs.Roots.{IsPairThrough, jobs_of};
ghost use Rattle.pl_provenance.specs.Texts.{IsSaid};
ghost use Rattle.pl_provenance.specs.Written.{ArePairsWhereTold};

use pl_base::{Argument, Expanded, FileKey, List};
use pl_budgets::Meter;
use pl_calls::Files;
use pl_directives::ExpandFault;
use std::alloc::Global;

/// The expansion of a root file with run arguments under a meter, as `pl_expand::expand_within` gives
/// it, and what the laws of this crate say of it, in words that don't speak of expansion.
///
/// Where the root extends a template, each key `stages`, `jobs` and `steps` of the tree and each
/// node and key under it crossed the border `extends` just once, and into that template; and what
/// of these no argument and no expression gave is written in the file of the last border that its
/// origin tells, which is the template or a file that it calls, itself or by files that it calls.
/// Each origin in the whole tree tells places of used files or of run arguments, its borders lead
/// into used files that are there, and what no argument and no expression gave stands where its
/// borders lead from the root file, along the paths under `template` of the items that call; and
/// each scalar and key of it says what is written where it stands (Microsoft Learn, Azure
/// Pipelines, "Security through templates"). The files stay as they are, and a fault is the one that
/// `pl_expand::expand_within` gives.
pub fn expand<F: Files>(
    alloc: Global,
    meter: &Meter,
    files: &mut F,
    root: &FileKey,
    arguments: &List<Argument>,
) -> Result<Expanded, ExpandFault>
    ensures tree { Gives result (expansion (F.files files.old) root.now arguments.now) }
    ensures same { F.files files.new ≡ F.files files.old }
    ensures steps { (file : Key) → IfOk result (λ whole. whole.extends ≡ Some file →
        AllByRecursion (IsPairThrough file) (jobs_of whole.tree)) }
    ensures written { (file : Key) → IfOk result (λ whole. whole.extends ≡ Some file →
        ArePairsWhereTold (F.files files.old) (jobs_of whole.tree)) }
    ensures closure { (file : Key) → IfOk result (λ whole. whole.extends ≡ Some file →
        ArePairsFromClosure (F.files files.old) whole.tree file) }
    ensures known { IfOk result (λ whole.
        AllByRecursion
        (IsKnown (F.files files.old) (home_in root.now whole) whole.used arguments.now)
        (origins_of whole.tree)) }
    ensures texts { IfOk result (λ whole.
        AllByRecursion (IsSaid (F.files files.old)) (marks_of whole.tree)) }
{
    pl_expand::expand_within(alloc, meter, files, root, arguments)
}
