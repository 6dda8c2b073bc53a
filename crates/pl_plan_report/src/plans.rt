ghost use Rattle.std.specs.Prelude.{◌≡◌, ◌++◌, IfOk, OnOk};
ghost use Rattle.pl_plan_report.specs.Lines.{extends_line, plan_text};

use crate::stages::push_stages;
use pl_base::{FileKey, Memory, Text};
use pl_plan::Plan;
use pl_report::push_key;
use std::alloc::Global;

/// How many bytes the text of a plan has room for at first: most plans are small.
const ROOM: usize = 4_096;

/// Puts the line of the template that the root file extends behind a text, where there is one.
fn push_extends(text: &mut Text, extends: &Option<FileKey>) -> Result<(), Memory>
    ensures { OnOk result (text.new ≡ text.old ++ extends_line extends.now) }
{
    match extends {
        Some(file) => {
            text.push_str("extends ")?;
            push_key(text, file)?;
            text.push_str("\n")
        }
        None => Ok(()),
    }
}

/// A plan as a text of lines, each ended by a line feed:
///
/// - `extends REPO REF PATH`, where the root file extends a template (Microsoft Learn, Azure
///   Pipelines, "Templates", Extend from a template);
/// - for each stage, in order, `stage NAME depends [A, B] lock BEHAVIOUR uses [KIND NAME, ..]`: the
///   names of the stages that it waits for, `sequential` or `runLatest`, and what it uses, the kind
///   being `environment`, `connection`, `group`, `pool` or `repository`;
/// - behind it for each of its jobs `job LABEL depends [A, B] pool POOL`: a job's label is its
///   name, that of a leg `NAME.LEG`, and what it waits for are labels of its stage;
/// - behind that for each of its steps `step FORM REPO REF PATH:LINE:COL via`: the key that it
///   begins with and where its mapping is written, and then a space and a word for each border that
///   the mapping crossed, in order: `extends`, `include`, `argument` or `made`.
///
/// Names stand there as they are. A place at which no stage, or no job, stands is passed over; a
/// plan of `plan_of` has none. Memory where memory is wanting, and where a name that is waited for
/// or a step's line begins behind 16,777,216 bytes.
pub fn plan_text(alloc: Global, plan: &Plan) -> Result<Text, Memory>
    ensures { IfOk result (λ text. text ≡ plan_text plan.now) }
{
    let mut text = Text::from_string(String::with_capacity(alloc, ROOM)?);
    push_extends(&mut text, &plan.extends)?;
    push_stages(alloc, &mut text, plan.stages.as_slice())?;
    Ok(text)
}
