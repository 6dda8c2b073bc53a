ghost use Rattle.std.specs.Prelude.{◌≡◌, IfOk};
ghost use Rattle.pl_calls.specs.Gives.{GivesFrom};
ghost use Rattle.pl_directives.specs.Gives.{Gives};
ghost use Rattle.pl_frame.specs.Origins.{literal_at};
ghost use Rattle.pl_template.specs.Forms.{form_of};
ghost use Rattle.pl_recursion.specs.Following.{scope_of};
ghost use Rattle.pl_recursion.specs.Levels.{followed};
ghost use Rattle.pl_recursion.specs.Scalars.{scalar_at, path_by, path_at};

use crate::scope::Scope;
use crate::settling::settle;
use pl_base::{ExactCopy, MarkedNode, Memory, Place, Text, Value};
use pl_calls::{Files, Reach};
use pl_directives::{Counted, ExpandFault, MadeKey, enter, key_by, scalar_value};
use pl_frame::{Frame, literal_at};
use pl_template::{ScalarForm, scalar_form};
use std::alloc::Global;

/// A scalar where it stands: its value, in which calls are followed. X5 where an expression has no
/// end.
#[cycle(expansion)]
pub fn expand_scalar<F: Files>(
    alloc: Global,
    text: &Text,
    scope: Scope<'_>,
    place: &Place,
    count: u32,
    reach: &mut Reach<'_, F>,
) -> Result<Counted, ExpandFault>
    ensures scalar { GivesFrom F.files result reach.old reach.new (λ opens. scalar_at text.now
        (scope_of (followed scope.entry.at.calls opens) scope.entry.frame.now scope.entry.at.region)
        place.now count) }
{
    let one = scalar_value(alloc, text, scope.frame, place, count)?;
    settle(alloc, one, scope, reach)
}

/// The text that is written as a path.
fn plain_path(alloc: Global, text: &Text, frame: &Frame, place: &Place) -> Result<MadeKey, Memory>
    ensures { IfOk result (λ path. path ≡ record {
      key = text.now;
      origin = literal_at frame.now
          place.now;
    }) }
{
    frame.keep_text(text)?;
    let key = text.copy(alloc)?;
    let origin = literal_at(alloc, frame, place)?;
    Ok(MadeKey { key, origin })
}

/// The text of a path. X5 where an expression has no end, X9 where its value is a list or a
/// mapping.
fn path_by(alloc: Global, text: &Text, frame: &Frame, place: &Place) -> Result<MadeKey, ExpandFault>
    ensures { Gives result (path_by (form_of text.now) text.now frame.now place.now) }
{
    match scalar_form(alloc, text)? {
        ScalarForm::Plain => Ok(plain_path(alloc, text, frame, place)?),
        form => key_by(alloc, &form, frame, place),
    }
}

/// The path of a call, as a text: what its expressions yield isn't counted.
pub fn path_at(
    alloc: Global,
    text: &Text,
    frame: &Frame,
    place: &Place,
    count: u32,
) -> Result<Counted, ExpandFault>
    ensures { Gives result (path_at text.now frame.now place.now count) }
{
    let count = enter(alloc, place, count)?;
    let MadeKey { key, origin } = path_by(alloc, text, frame, place)?;
    let value = Value::Str(key);
    let node = MarkedNode { origin, value };
    Ok(Counted { node, count })
}
