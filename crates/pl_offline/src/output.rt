ghost use Rattle.std.specs.Prelude.{◌≡◌, IfOk};
ghost use Rattle.pl_plan_report.specs.Lines.{plan_text};
ghost use Rattle.pl_bundle.specs.Bundles.{bundle_of};
ghost use Rattle.pl_offline.specs.Output.{IsOutput};

use pl_base::{Argument, Bytes, List, Memory, Text};
use pl_budgets::{Budget, Meter};
use pl_bundle::{Bundle, bundle_of};
use pl_compile::{CompileFault, compile_within};
use pl_plan::Plan;
use pl_plan_report::plan_text;
use pl_report::refusal_line;
use std::alloc::Global;

/// What is told of an input.
#[derive(Drop)]
pub(crate) enum Output {
    /// The text of the plan.
    Plan(Text),
    /// The line of the refusal.
    Line(Text),
    /// Nothing: the input is no bundle.
    Nothing,
}

/// The text of a plan. The meter tells of the plan where memory is wanting, unless it told of
/// something before.
fn text_of(alloc: Global, meter: &Meter, plan: &Plan) -> Result<Text, Memory>
    ensures { IfOk result (λ text. text ≡ plan_text plan.now) }
{
    match plan_text(alloc, plan) {
        Ok(text) => Ok(text),
        Err(_) => Err(meter.pass(Budget::Plan)),
    }
}

/// What a bundle compiles to.
fn compiled(
    alloc: Global,
    meter: &Meter,
    bundle: &Bundle,
    arguments: &List<Argument>,
) -> Result<Output, Memory>
    ensures { IfOk result (λ output. IsOutput (Some bundle.now) arguments.now output) }
{
    match compile_within(alloc, meter, &bundle.files, &bundle.root, arguments) {
        Ok(compiled) => Ok(Output::Plan(text_of(alloc, meter, &compiled.plan)?)),
        Err(CompileFault::Refused(refusal)) => Ok(Output::Line(refusal_line(alloc, &refusal)?)),
        Err(CompileFault::Memory) => Err(Memory),
    }
}

/// The bundle that bytes are. The bytes are dropped. The meter tells of the bundle where memory is
/// wanting.
fn bundle_in(alloc: Global, meter: &Meter, bytes: Bytes) -> Result<Option<Bundle>, Memory>
    ensures { IfOk result (λ bundle. bundle ≡ bundle_of bytes) }
{
    match bundle_of(alloc, bytes.as_slice()) {
        Ok(bundle) => Ok(bundle),
        Err(_) => Err(meter.pass(Budget::Bundle)),
    }
}

/// What is told of bytes, which are dropped before what they hold is compiled.
pub(crate) fn output_of(
    alloc: Global,
    meter: &Meter,
    bytes: Bytes,
    arguments: &List<Argument>,
) -> Result<Output, Memory>
    ensures { IfOk result (λ output. IsOutput (bundle_of bytes) arguments.now output) }
{
    match bundle_in(alloc, meter, bytes)? {
        Some(bundle) => compiled(alloc, meter, &bundle, arguments),
        None => Ok(Output::Nothing),
    }
}
