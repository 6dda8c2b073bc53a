ghost use Rattle.std.specs.Prelude.{◌≡◌, IfOk};
ghost use Rattle.pl_base.specs.Files.{text_cmp};
ghost use Rattle.pl_base.specs.Folding.{folded};
ghost use Rattle.std.specs.FinMap as finite;
ghost use Rattle.std.specs.Option.{option_map};
ghost use Rattle.pl_eval.specs.LookUps.{found_behind, part_of};
ghost use Rattle.pl_frame.specs.Names.{known_at, contexts_at};

use crate::frame::Frame;
use crate::members::loop_named;
use crate::parts::{part_of_parameters, part_of_variables};
use pl_base::{List, Memory, Place, Text, Value};
use pl_eval::{Names, RootPart, part_behind, work_of_seeking_among};
use pl_expr::Function;
use pl_literal::spells;
use std::alloc::Global;

/// What names stand for in an expression at a place of a frame's file.
#[derive(Drop)]
pub struct FrameNames<'f> {
    pub frame: &'f Frame,
    pub place: &'f Place,
}

impl Names for FrameNames<'_> {
    ghost known = { λ names. known_at names.frame.now names.place.now };

    fn part(&self, alloc: Global, root: &Text, path: &[Value]) -> Result<RootPart, Memory> {
        self.frame
            .meter()
            .work(work_of_naming(self.frame, root, path))?;
        let found = loop_named(alloc, &self.frame.loops, root)?;
        match found {
            Some(item) => part_behind(alloc, self.frame.meter(), item, path),
            None => context_part(alloc, self.frame, self.place, root, path),
        }
    }

    fn spend(&self, bytes: u64, work: u64) -> Result<(), Memory> {
        let meter = self.frame.meter();
        meter.hold(bytes)?;
        meter.work(work)
    }

    fn status(&self, function: Function, names: &List<Text>) -> bool {
        match function {
            Function::Always => true,
            Function::Succeeded => names.is_empty(),
            Function::SucceededOrFailed => names.is_empty(),
            Function::Failed => false,
            _ => false,
        }
    }
}

/// How many units of work it is to seek a root's name among the loops, of which a file opens at most
/// some thirty in one another, and the first index among the parameters or the variables.
fn work_of_naming(frame: &Frame, root: &Text, path: &[Value]) -> u64 {
    let loops = (root.len() as u64).saturating_mul(8).saturating_add(64);
    let members = frame
        .parameters
        .len()
        .saturating_add(frame.variables.all().len());
    match path.first() {
        Some(at) => loops.saturating_add(work_of_seeking_among(members, at)),
        None => loops,
    }
}

/// What a path finds in a context, the case of its name aside. Nothing else of it is copied.
fn context_part(
    alloc: Global,
    frame: &Frame,
    place: &Place,
    root: &Text,
    path: &[Value],
) -> Result<RootPart, Memory>
    ensures { IfOk result
        (λ part. part ≡ part_of
        (option_map (found_behind path.now)
        (finite.find text_cmp (folded root.now) (contexts_at frame.now place.now)))) }
{
    if spells(root.as_str(), "parameters") {
        return part_of_parameters(alloc, frame, place, path);
    }
    if spells(root.as_str(), "variables") {
        return part_of_variables(alloc, frame, place, path);
    }
    Ok(RootPart::NoRoot)
}
