ghost use Rattle.std.specs.Prelude.{◌≡◌};
ghost use Rattle.pl_literal.specs.Items.{kind_of_key, kind_of_item};

use pl_base::{Text, Value};

/// What an item of a list of steps, jobs or stages is (Microsoft Learn, Azure Pipelines, "YAML
/// schema reference").
#[derive(Clone, Copy, Debug, PartialEq, Eq)]
pub enum ItemKind {
    Step,
    Job,
    Deployment,
    Stage,
    /// The call of a template, which stands for such items.
    Template,
}

/// The kind of the items whose first key this is: a step for `task`, `script`, `bash`, `pwsh`,
/// `powershell`, `checkout`, `publish` and `download`, a job for `job`, a deployment for
/// `deployment`, a stage for `stage`, the call of a template for `template`. None for every other
/// key. Keys are exact.
pub fn kind_of_key(key: &Text) -> Option<ItemKind>
    ensures { result ≡ kind_of_key key.now }
{
    match key.as_str() {
        "task" | "script" | "bash" | "pwsh" | "powershell" | "checkout" | "publish" | "download" =>
            { Some(ItemKind::Step) }
        "job" => Some(ItemKind::Job),
        "deployment" => Some(ItemKind::Deployment),
        "stage" => Some(ItemKind::Stage),
        "template" => Some(ItemKind::Template),
        _ => None,
    }
}

/// The kind of an item, by its first key. None for a value that isn't a mapping with a first key.
pub fn kind_of_item(value: &Value) -> Option<ItemKind>
    ensures { result ≡ kind_of_item value.now }
{
    match value {
        Value::Object(pairs) => match pairs.as_slice() {
            [first, ..] => kind_of_key(&first.key),
            [] => None,
        },
        _ => None,
    }
}
