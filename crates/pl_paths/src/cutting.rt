ghost use Rattle.std.specs.Prelude.{◌≡◌, Some, None, IfOk};
ghost use Rattle.pl_paths.specs.Paths.{cut_path};

use pl_base::{Memory, Text};
use std::alloc::Global;

/// The path of a template, and the alias of the repository that holds it, where one is written.
#[derive(Debug, Drop)]
pub struct TemplatePath {
    pub path: Text,
    pub alias: Option<Text>,
}

/// The path and the alias that a text names (Microsoft Learn, Azure Pipelines, "Templates"): the
/// alias is what stands behind the last `@`. Memory where memory is wanting.
pub fn cut_path(alloc: Global, text: &Text) -> Result<TemplatePath, Memory>
    ensures { IfOk result (λ cut. cut ≡ cut_path text.now) }
{
    cut(alloc, text.as_str())
}

fn cut(alloc: Global, text: &str) -> Result<TemplatePath, Memory>
    ensures { IfOk result (λ cut. cut ≡ cut_path text.now) }
{
    match text.rsplit_once('@') {
        None => alone(alloc, text),
        Some((path, alias)) => both(alloc, path, alias),
    }
}

fn alone(alloc: Global, path: &str) -> Result<TemplatePath, Memory>
    ensures { IfOk result (λ cut. cut ≡ record { path = path.now; alias = None }) }
{
    let path = Text::from_str(alloc, path)?;
    Ok(TemplatePath { path, alias: None })
}

fn both(alloc: Global, path: &str, alias: &str) -> Result<TemplatePath, Memory>
    ensures { IfOk result (λ cut. cut ≡ record { path = path.now; alias = Some alias.now }) }
{
    let path = Text::from_str(alloc, path)?;
    let alias = Text::from_str(alloc, alias)?;
    Ok(TemplatePath {
        path,
        alias: Some(alias),
    })
}
