ghost use Rattle.std.specs.Prelude.{◌≡◌, ◌++◌, codes, OnOk};
ghost use Rattle.std.specs.List.{join_by};
ghost use Rattle.pl_plan_report.specs.Lists.{depends_text, names_at, parted, use_text, uses_text};

use crate::bound::push_within;
use crate::words::kind_word;
use pl_base::{List, Memory, ResourceKey, Text};

/// Puts the names at these places behind a text, parted by a comma and a space. There is none at a
/// place behind the last one.
fn push_parted(text: &mut Text, names: &List<Text>, places: &[u32]) -> Result<(), Memory>
    ensures { OnOk result (text.new ≡ text.old ++ parted (names_at names.now places.now)) }
{
    let mut before = "";
    for place in places {
        if let Some(name) = names.get(*place as usize) {
            text.push_str(before)?;
            push_within(text, name.as_str())?;
            before = ", ";
        }
    }
    Ok(())
}

/// Puts the names at these places behind a text, as what is waited for.
pub fn push_depends(text: &mut Text, names: &List<Text>, places: &[u32]) -> Result<(), Memory>
    ensures { OnOk result (text.new ≡ text.old ++ depends_text names.now places.now) }
{
    text.push_str(" depends [")?;
    push_parted(text, names, places)?;
    text.push_str("]")
}

/// Puts a resource behind a text, as `KIND NAME`.
fn push_use(text: &mut Text, key: &ResourceKey) -> Result<(), Memory>
    ensures { OnOk result (text.new ≡ text.old ++ use_text key.now) }
{
    text.push_str(kind_word(key.kind))?;
    text.push_str(" ")?;
    text.push_str(key.name.as_str())
}

/// Puts resources behind a text, parted by a comma and a space.
fn push_each_use(text: &mut Text, keys: &[ResourceKey]) -> Result<(), Memory>
    ensures { OnOk result (text.new ≡ text.old ++ join_by use_text (codes ", ") keys.now) }
{
    let mut before = "";
    for key in keys {
        text.push_str(before)?;
        push_use(text, key)?;
        before = ", ";
    }
    Ok(())
}

/// Puts resources behind a text, as what is used.
pub fn push_uses(text: &mut Text, keys: &[ResourceKey]) -> Result<(), Memory>
    ensures { OnOk result (text.new ≡ text.old ++ uses_text keys.now) }
{
    text.push_str(" uses [")?;
    push_each_use(text, keys)?;
    text.push_str("]")
}
