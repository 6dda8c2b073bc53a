ghost use Rattle.std.specs.Prelude.{◌≡◌, Some, IfOk};
ghost use Rattle.std.specs.List.{AllByRecursion};
ghost use Rattle.pl_base.specs.declared.place.FileKey.{FileKey as Key};
ghost use Rattle.pl_eval_laws.specs.Marks.{marks_of};
ghost use Rattle.pl_eval_laws.specs.Trees.{origins_of};
ghost use Rattle.pl_provenance.specs.Closure.{ArePairsFromClosure};
ghost use Rattle.pl_provenance.specs.Known.{IsKnown, home_in};
ghost use Rattle.pl_provenance.specs.Roots.{IsPairThrough, jobs_of};
ghost use Rattle.pl_provenance.specs.Texts.{IsSaid};
ghost use Rattle.pl_provenance.specs.Written.{ArePairsWhereTold};

use pl_base::{Argument, Expanded, FileKey, List};
use pl_budgets::Meter;
use pl_calls::Files;
use pl_directives::ExpandFault;
use std::alloc::Global;

/// An expansion, by those clauses of `pl_provenance::expand` alone that don't speak of expansion:
/// what they say of a tree, whatever gave it. So a body that gives another tree shows what these
/// clauses refuse by themselves.
pub fn traced<F: Files>(
    alloc: Global,
    meter: &Meter,
    files: &mut F,
    root: &FileKey,
    arguments: &List<Argument>,
) -> Result<Expanded, ExpandFault>
    ensures same { F.files files.new ≡ F.files files.old }
    ensures steps { (file : Key) → IfOk result (λ whole. whole.extends ≡ Some file →
        AllByRecursion (IsPairThrough file) (jobs_of whole.tree)) }
    ensures written { (file : Key) → IfOk result (λ whole. whole.extends ≡ Some file →
        ArePairsWhereTold (F.files files.old) (jobs_of whole.tree)) }
    ensures closure { (file : Key) → IfOk result (λ whole. whole.extends ≡ Some file →
        ArePairsFromClosure (F.files files.old) whole.tree file) }
    ensures known { IfOk result (λ whole.
        AllByRecursion
        (IsKnown (F.files files.old) (home_in root.now whole) whole.used arguments.now)
        (origins_of whole.tree)) }
    ensures texts { IfOk result (λ whole.
        AllByRecursion (IsSaid (F.files files.old)) (marks_of whole.tree)) }
{
    pl_provenance::expand(alloc, meter, files, root, arguments)
}
