ghost use Rattle.std.specs.Prelude.{◌≡◌, Some, Ok, IfOk, Result as Answer};
ghost use Rattle.std.specs.List.{AllByRecursion};
ghost use Rattle.pl_base.specs.declared.place.FileKey.{FileKey as Key};
ghost use Rattle.pl_base.specs.declared.expanded.Expanded.{Expanded as Tree};
ghost use Rattle.pl_directives.specs.Gives.{Gives};
ghost use Rattle.pl_directives.specs.declared.fault.ExpandFault.{ExpandFault as Fault};
ghost use Rattle.pl_eval_laws.specs.Marks.{marks_of};
ghost use Rattle.pl_eval_laws.specs.Trees.{origins_of};
ghost use Rattle.pl_step_origins.specs.Below.pl_provenance.specs.Closure.{ArePairsFromClosure};
ghost use Rattle.pl_step_origins.specs.Below.pl_provenance.specs.Known.{IsKnown, home_in};
ghost use Rattle.pl_step_origins.specs.Below.pl_provenance.specs.Roots.{IsPairThrough, jobs_of};
ghost use Rattle.pl_step_origins.specs.Below.pl_provenance.specs.Texts.{IsSaid};
ghost use Rattle.pl_step_origins.specs.Below.pl_provenance.specs.Written.{ArePairsWhereTold};
ghost use Rattle.pl_compile.specs.Reading.{read_all, tree_of};
ghost use Rattle.pl_compile.specs.Refusals.{Tells};

use crate::fault::CompileFault;
use crate::refusing::refusal_of;
use crate::text_files::TextFiles;
use pl_base::{Argument, Expanded, FileKey, List};
use pl_budgets::Meter;
use pl_directives::ExpandFault;
use pl_file_sets::SharedFiles;
use pl_step_origins::expand;
use std::alloc::Global;

/// What is told of an expansion.
fn told(alloc: Global, expanded: Result<Expanded, ExpandFault>) -> Result<Expanded, CompileFault>
    ensures meant { (meant : Answer Tree Fault) → Gives expanded meant → Tells result meant }
    ensures same { IfOk result (λ whole. expanded ≡ Ok whole) }
{
    match expanded {
        Ok(expanded) => Ok(expanded),
        Err(ExpandFault::Refused(complaint)) => {
            Err(CompileFault::Refused(refusal_of(alloc, complaint)?))
        }
        Err(ExpandFault::Memory) => Err(CompileFault::Memory),
    }
}

/// The expanded tree of a pipeline whose files are texts (Microsoft Learn, Azure Pipelines,
/// "Templates").
///
/// `root` is the key of the pipeline's file, `arguments` are the run's, as texts. Each file is read
/// as YAML once at most, and only where it is reached. What comes out is the tree with the origin
/// of each node, the template that the root extends, the repositories and the files that were used.
/// Refused with the first code of the expansion, X1 to X16, at its place; where that is X12, X13,
/// X14 or X16 its one detail is the code of what is wrong with the expression, its value, the
/// parameter or the text. Memory where memory was wanting.
///
/// Where the root extends a template, each key `stages`, `jobs` and `steps` of the tree and each
/// node and key under it crossed the border `extends` just once, and into that template (clause
/// `steps`); and what of these no argument and no expression gave is written in the file of the
/// last border that its origin tells (clause `written`), which is the template or a file that it
/// calls, itself or by files that it calls (clause `closure`). Each origin in the whole tree tells
/// places of used files or of run arguments, its borders lead into used files that are there, and
/// what no argument and no expression gave stands where its borders lead from the root file, along
/// the paths under `template` of the items that call (clause `known`). And each scalar and key that
/// no argument gave and no expression made says what is written where it stands (clause `texts`;
/// Microsoft Learn, Azure Pipelines, "Security through templates").
pub fn expanded(
    alloc: Global,
    meter: &Meter,
    files: &SharedFiles,
    root: &FileKey,
    arguments: &List<Argument>,
) -> Result<Expanded, CompileFault>
    ensures tree { Tells result (tree_of files.now root.now arguments.now) }
    ensures steps { (file : Key) → IfOk result (λ whole. whole.extends ≡ Some file →
        AllByRecursion (IsPairThrough file) (jobs_of whole.tree)) }
    ensures written { (file : Key) → IfOk result (λ whole. whole.extends ≡ Some file →
        ArePairsWhereTold (read_all files.now) (jobs_of whole.tree)) }
    ensures closure { (file : Key) → IfOk result (λ whole. whole.extends ≡ Some file →
        ArePairsFromClosure (read_all files.now) whole.tree file) }
    ensures known { IfOk result (λ whole.
        AllByRecursion
        (IsKnown (read_all files.now) (home_in root.now whole) whole.used arguments.now)
        (origins_of whole.tree)) }
    ensures texts { IfOk result (λ whole.
        AllByRecursion (IsSaid (read_all files.now)) (marks_of whole.tree)) }
{
    let mut read = TextFiles::new(alloc, meter, files);
    let expanded = expand(alloc, meter, &mut read, root, arguments);
    told(alloc, expanded)
}
