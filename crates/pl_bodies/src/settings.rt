//! The bodies of the routes that have one.

ghost use Rattle.std.specs.Prelude.{◌≡◌};
ghost use Rattle.pl_bodies.specs.Meaning.{Gives, read_by};
ghost use Rattle.pl_bodies.specs.Settings.{agent_by, decision_in, order_in, permitted_of};
ghost use Rattle.pl_bodies.specs.Settings.{pipeline_by, principal_by, report_in, resource_by};
ghost use Rattle.pl_bodies.specs.Settings.{word_permits};
ghost use Rattle.pl_trees.specs.Trees.{seen};

use crate::content::value_in;
use crate::fault::BodyFault;
use crate::field::{Field, only, required};
use crate::named::field_by_name;
use crate::words::verdict_in;
use json::Scratch;
use pl_base::{Argument, Digest, List, Outcome, ResourceKey, Text};
use pl_checks::Check;
use pl_requests::{
    AgentSetting, Order, PipelineSetting, PrincipalSetting, Report, ResourceSetting,
};
use pl_rules::Role;
use pl_trees::{Tree, text_in};
use std::alloc::Global;

/// The pipeline of this name that a content says: an object of exactly `repo` and `path`, which are
/// texts.
pub fn pipeline_of(alloc: Global, name: Text, content: &[u8]) -> Result<PipelineSetting, BodyFault>
    ensures { Gives result (read_by (pipeline_by name) content.now) }
{
    let mut scratch = Scratch::new(alloc);
    let body = value_in(alloc, content, &mut scratch)?;
    only(&body, &["repo", "path"])?;
    let repo = required::<Text>(alloc, &body, "repo")?;
    let path = required::<Text>(alloc, &body, "path")?;
    Ok(PipelineSetting { name, repo, path })
}

/// The pipelines that a word permits: all of them.
fn permitted_in(word: &str) -> Result<Option<List<Text>>, BodyFault>
    ensures { Gives result (word_permits word.now) }
{
    match word {
        "all" => Ok(None),
        _ => Err(BodyFault::Bad),
    }
}

/// The pipelines that may use a resource: the word `all`, or a list of their names.
impl Field for Option<List<Text>> {
    ghost meant = { permitted_of };

    fn read(alloc: Global, value: &Tree<'_>) -> Result<Option<List<Text>>, BodyFault> {
        match text_in(value) {
            Some(word) => permitted_in(word),
            None => Ok(Some(List::read(alloc, value)?)),
        }
    }
}

/// The resource of this key that a content says: an object of exactly `pipelines` (the text `all`,
/// or a list of texts), `exclusive` (true or false) and `checks` (a list of objects).
pub fn resource_of(
    alloc: Global,
    key: ResourceKey,
    content: &[u8],
) -> Result<ResourceSetting, BodyFault>
    ensures { Gives result (read_by (resource_by key) content.now) }
{
    let mut scratch = Scratch::new(alloc);
    let body = value_in(alloc, content, &mut scratch)?;
    only(&body, &["pipelines", "exclusive", "checks"])?;
    let pipelines = required::<Option<List<Text>>>(alloc, &body, "pipelines")?;
    let exclusive = required::<bool>(alloc, &body, "exclusive")?;
    let checks = required::<List<Check>>(alloc, &body, "checks")?;
    Ok(ResourceSetting {
        key,
        pipelines,
        exclusive,
        checks,
    })
}

/// The principal of this name that a content says: an object of exactly `roles` (a list of words)
/// and `tokenSha256` (64 hexadecimal digits in lower case).
pub fn principal_of(
    alloc: Global,
    name: Text,
    content: &[u8],
) -> Result<PrincipalSetting, BodyFault>
    ensures { Gives result (read_by (principal_by name) content.now) }
{
    let mut scratch = Scratch::new(alloc);
    let body = value_in(alloc, content, &mut scratch)?;
    only(&body, &["roles", "tokenSha256"])?;
    let roles = required::<List<Role>>(alloc, &body, "roles")?;
    let digest = required::<Digest>(alloc, &body, "tokenSha256")?;
    Ok(PrincipalSetting {
        name,
        roles,
        digest,
    })
}

/// The agent of this name that a content says: an object of exactly `pool` (a text) and
/// `capabilities` (an object of texts).
pub fn agent_of(alloc: Global, name: Text, content: &[u8]) -> Result<AgentSetting, BodyFault>
    ensures { Gives result (read_by (agent_by name) content.now) }
{
    let mut scratch = Scratch::new(alloc);
    let body = value_in(alloc, content, &mut scratch)?;
    only(&body, &["pool", "capabilities"])?;
    let pool = required::<Text>(alloc, &body, "pool")?;
    let capabilities = field_by_name::<(Text, Text)>(alloc, &body, "capabilities")?;
    Ok(AgentSetting {
        name,
        pool,
        capabilities,
    })
}

/// What a content says is to be queued: an object of exactly `pipeline` and `ref` (texts) and
/// `parameters` (an object of texts).
pub fn order_of(alloc: Global, content: &[u8]) -> Result<Order, BodyFault>
    ensures { Gives result (read_by order_in content.now) }
{
    let mut scratch = Scratch::new(alloc);
    let body = value_in(alloc, content, &mut scratch)?;
    only(&body, &["pipeline", "ref", "parameters"])?;
    let pipeline = required::<Text>(alloc, &body, "pipeline")?;
    let git_ref = required::<Text>(alloc, &body, "ref")?;
    let arguments = field_by_name::<Argument>(alloc, &body, "parameters")?;
    Ok(Order {
        pipeline,
        git_ref,
        arguments,
    })
}

/// Whether the decision that a content says approves: an object of exactly `verdict`, `approve` or
/// `reject`.
pub fn verdict_of(alloc: Global, content: &[u8]) -> Result<bool, BodyFault>
    ensures { Gives result (read_by decision_in content.now) }
{
    let mut scratch = Scratch::new(alloc);
    let body = value_in(alloc, content, &mut scratch)?;
    only(&body, &["verdict"])?;
    let word = required::<Text>(alloc, &body, "verdict")?;
    let approve = verdict_in(word.as_str())?;
    Ok(approve)
}

/// The report that a content says: an object of exactly `result` (a word, not `Skipped`) and
/// `outputs` (an object of texts).
pub fn report_of(alloc: Global, content: &[u8]) -> Result<Report, BodyFault>
    ensures { Gives result (read_by report_in content.now) }
{
    let mut scratch = Scratch::new(alloc);
    let body = value_in(alloc, content, &mut scratch)?;
    only(&body, &["result", "outputs"])?;
    let outcome = required::<Outcome>(alloc, &body, "result")?;
    let outputs = field_by_name::<(Text, Text)>(alloc, &body, "outputs")?;
    Ok(Report { outcome, outputs })
}
