ghost use Rattle.std.specs.Prelude.{◌≡◌, ◌++◌, IfOk, OnOk};
ghost use Rattle.std.specs.FinMap as finite;
ghost use Rattle.pl_base.specs.declared.place.FileKey.{FileKey as Key};
ghost use Rattle.pl_compile.specs.Compiling.{Compiles, Plans, PlansTree, Reads, names_of};
ghost use Rattle.pl_compile.specs.Compiling.{plan_refusal, schema_refusal, sources_of, text_at};
ghost use Rattle.pl_compile.specs.Compiling.{texts_of};
ghost use Rattle.pl_compile.specs.Tracing.{AreKnown, AreSaid, AreWritten, ComeFromClosure};
ghost use Rattle.pl_compile.specs.Tracing.{ComeThrough};

use crate::copying::judge_copies;
use crate::expanding::expanded;
use crate::fault::CompileFault;
use pl_base::{Argument, Bytes, ExactCopy, Expanded, FileKey, List, Memory, Place, Refusal, Text};
use pl_budgets::Meter;
use pl_file_sets::SharedFiles;
use pl_plan::{Compiled, Plan, PlanCode, PlanFault, Sources, plan_of};
use pl_schema::{Pipeline, SchemaCode, SchemaFault, pipeline_of};
use std::alloc::Global;

/// The refusal that a fault of the schema is told as.
fn schema_refusal(alloc: Global, code: SchemaCode, place: Place) -> Result<Refusal, Memory>
    ensures { IfOk result (λ refusal. refusal ≡ schema_refusal (code, place)) }
{
    let code = Text::from_str(alloc, code.code())?;
    Ok(Refusal {
        code,
        place,
        detail: List::new(alloc),
    })
}

/// The names of a cycle, and none of another fault.
fn names_of(alloc: Global, code: PlanCode) -> List<Text>
    ensures { result ≡ names_of code }
{
    match code {
        PlanCode::Cycle(names) => names,
        _ => List::new(alloc),
    }
}

/// The refusal that a fault of the plan is told as.
fn plan_refusal(alloc: Global, code: PlanCode, place: Place) -> Result<Refusal, Memory>
    ensures { IfOk result (λ refusal. refusal ≡ plan_refusal (code, place)) }
{
    let number = Text::from_str(alloc, code.code())?;
    Ok(Refusal {
        code: number,
        place,
        detail: names_of(alloc, code),
    })
}

/// The pipeline of an expanded tree.
fn read(alloc: Global, whole: &Expanded) -> Result<Pipeline, CompileFault>
    ensures { Reads whole.now result }
{
    match pipeline_of(alloc, whole) {
        Ok(pipeline) => Ok(pipeline),
        Err(SchemaFault::Refused(code, place)) => {
            Err(CompileFault::Refused(schema_refusal(alloc, code, place)?))
        }
        Err(SchemaFault::Memory) => Err(CompileFault::Memory),
    }
}

/// The plan of a pipeline.
fn planned(alloc: Global, meter: &Meter, pipeline: &Pipeline) -> Result<Plan, CompileFault>
    ensures { Plans pipeline.now result }
{
    judge_copies(meter, pipeline)?;
    match plan_of(alloc, pipeline) {
        Ok(plan) => Ok(plan),
        Err(PlanFault::Refused(code, place)) => {
            Err(CompileFault::Refused(plan_refusal(alloc, code, place)?))
        }
        Err(PlanFault::Memory) => Err(CompileFault::Memory),
    }
}

/// The plan of an expanded tree.
fn tree_planned(alloc: Global, meter: &Meter, whole: &Expanded) -> Result<Plan, CompileFault>
    ensures { PlansTree whole.now result }
{
    match read(alloc, whole) {
        Ok(pipeline) => planned(alloc, meter, &pipeline),
        Err(fault) => Err(fault),
    }
}

/// Puts the text of a file behind others, with its key, where there is one.
fn push_text(
    alloc: Global,
    texts: &mut List<(FileKey, Bytes)>,
    files: &SharedFiles,
    key: &FileKey,
) -> Result<(), Memory>
    ensures { OnOk result
        (texts.new ≡ texts.old ++ text_at key.now (finite.get files.now key.now)) }
{
    match files.get(key) {
        Some(text) => {
            let text = Bytes::from_slice(alloc, text.as_slice())?;
            texts.push((key.copy(alloc)?, text))
        }
        None => Ok(()),
    }
}

/// Puts the texts of files behind others, in this order.
fn push_texts(
    alloc: Global,
    texts: &mut List<(FileKey, Bytes)>,
    files: &SharedFiles,
    keys: &[FileKey],
) -> Result<(), Memory>
    ensures { OnOk result (texts.new ≡ texts.old ++ texts_of files.now keys.now) }
{
    for key in keys {
        push_text(alloc, texts, files, key)?;
    }
    Ok(())
}

/// What a plan was compiled from.
fn sources_of(
    alloc: Global,
    files: &SharedFiles,
    root: &FileKey,
    arguments: &List<Argument>,
    used: &List<FileKey>,
) -> Result<Sources, Memory>
    ensures { IfOk result
        (λ sources. sources ≡ sources_of files.now root.now arguments.now used.now) }
{
    let mut texts = List::new(alloc);
    push_texts(alloc, &mut texts, files, used.as_slice())?;
    let arguments = arguments.copy(alloc)?;
    let root = root.copy(alloc)?;
    Ok(Sources {
        root,
        arguments,
        files: texts,
    })
}

/// The plan of a pipeline and what it was compiled from, as `compile` gives them, where what is
/// made and done counts in a meter. Memory where a budget is passed, of which the meter tells the
/// first one.
pub fn compile_within(
    alloc: Global,
    meter: &Meter,
    files: &SharedFiles,
    root: &FileKey,
    arguments: &List<Argument>,
) -> Result<Compiled, CompileFault>
    ensures compiled { Compiles files.now root.now arguments.now result }
    ensures steps { (file : Key) → IfOk result (ComeThrough file) }
    ensures written { (file : Key) → IfOk result (AreWritten files.now file) }
    ensures closure { (file : Key) →
        IfOk result (ComeFromClosure files.now root.now arguments.now file) }
    ensures known { IfOk result (AreKnown files.now root.now arguments.now) }
    ensures texts { IfOk result (AreSaid files.now) }
{
    let whole = expanded(alloc, meter, files, root, arguments)?;
    match tree_planned(alloc, meter, &whole) {
        Ok(plan) => {
            let sources = sources_of(alloc, files, root, arguments, &whole.used)?;
            Ok(Compiled { plan, sources })
        }
        Err(fault) => Err(fault),
    }
}

/// The plan of a pipeline whose files are texts, with what it was compiled from: the root file's
/// key, the arguments, and the texts of the files that were used, in the order in which they were.
///
/// `root` is the key of the pipeline's file, `arguments` are the run's, as texts. The pipeline is
/// expanded, read by the schema and planned. Refused with the first code of the expansion (X1 to
/// X16), else of the schema (S1 to S9), else of the plan (L1 to L6), at its place; details are the
/// inner code for X12, X13, X14 and X16, and the names of a cycle for L2. Memory where memory was
/// wanting.
///
/// Where the plan extends a template, the mapping of each step and each node and key in it crossed
/// the border `extends` just once, and into that template (clause `steps`); and what of these no
/// argument and no expression gave is written in the file of the last border that its origin tells
/// (clause `written`), which is the template or one that it calls, itself or by files that it calls
/// (clause `closure`). Each origin in a step tells places of used files or of run arguments, its
/// borders lead into files among the sources, and what no argument and no expression gave stands
/// where its borders lead from the root file, along the paths under `template` of the items that
/// call (clause `known`). And each scalar and key in a step that no argument gave and no expression
/// made says what is written where it stands (clause `texts`; Microsoft Learn, Azure Pipelines,
/// "Security through templates").
pub fn compile(
    alloc: Global,
    files: &SharedFiles,
    root: &FileKey,
    arguments: &List<Argument>,
) -> Result<Compiled, CompileFault>
    ensures compiled { Compiles files.now root.now arguments.now result }
    ensures steps { (file : Key) → IfOk result (ComeThrough file) }
    ensures written { (file : Key) → IfOk result (AreWritten files.now file) }
    ensures closure { (file : Key) →
        IfOk result (ComeFromClosure files.now root.now arguments.now file) }
    ensures known { IfOk result (AreKnown files.now root.now arguments.now) }
    ensures texts { IfOk result (AreSaid files.now) }
{
    let meter = Meter::new(alloc)?;
    compile_within(alloc, &meter, files, root, arguments)
}
