use pl_base::{Bytes, Digest, FileKey, List, ResourceKey, Text};
use pl_checks::Check;
use pl_rules::Role;

/// A file: where it is, and its text.
#[derive(Debug, Drop)]
pub struct FileText {
    pub key: FileKey,
    pub text: Bytes,
}

/// A pipeline: its name, and the repository and the path of the file that it is compiled from.
#[derive(Debug, Drop)]
pub struct PipelineSetting {
    pub name: Text,
    pub repo: Text,
    pub path: Text,
}

/// A resource: which pipelines may use it (None: all may), whether one stage at a time uses it, and
/// the checks that guard it (Microsoft Learn, Azure Pipelines, "Approvals and checks").
#[derive(Debug, Drop)]
pub struct ResourceSetting {
    pub key: ResourceKey,
    pub pipelines: Option<List<Text>>,
    pub exclusive: bool,
    pub checks: List<Check>,
}

/// A principal: its name, its roles in the order given, and the digest of its token.
#[derive(Debug, Drop)]
pub struct PrincipalSetting {
    pub name: Text,
    pub roles: List<Role>,
    pub digest: Digest,
}

/// An agent: its name, its pool, and its capabilities by name, in byte order of the names
/// (Microsoft Learn, Azure Pipelines, "Azure Pipelines agents", Capabilities).
#[derive(Debug, Drop)]
pub struct AgentSetting {
    pub name: Text,
    pub pool: Text,
    pub capabilities: List<(Text, Text)>,
}
