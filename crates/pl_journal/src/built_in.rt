//! What is there without a fact.

ghost use Rattle.std.specs.Prelude.{◌≡◌, IfOk};
ghost use Rattle.pl_journal.specs.Settings.{admin_agent, admin_principal, default_pool};

use pl_base::{Digest, Kind, List, Memory, ResourceKey, Text};
use pl_facts::{AgentSetting, PrincipalSetting, ResourceSetting, Role};
use std::alloc::Global;

/// The principal and the agent `admin`, and the pool `Default`.
#[derive(Drop)]
pub(crate) struct BuiltIn {
    pub(crate) admin: PrincipalSetting,
    pub(crate) agent: AgentSetting,
    pub(crate) pool: ResourceSetting,
}

impl BuiltIn {
    /// These three, with this digest of admin's token.
    pub(crate) fn new(alloc: Global, digest: Digest) -> Result<BuiltIn, Memory>
        ensures admin { IfOk result (λ built. built.admin ≡ admin_principal digest) }
        ensures agent { IfOk result (λ built. built.agent ≡ admin_agent) }
        ensures pool { IfOk result (λ built. built.pool ≡ default_pool) }
    {
        let admin = admin(alloc, digest)?;
        let agent = agent(alloc)?;
        let pool = pool(alloc)?;
        Ok(BuiltIn { admin, agent, pool })
    }
}

/// The principal `admin`, who has all roles.
fn admin(alloc: Global, digest: Digest) -> Result<PrincipalSetting, Memory>
    ensures { IfOk result (λ admin. admin ≡ admin_principal digest) }
{
    let name = Text::from_str(alloc, "admin")?;
    let roles = List::from_slice(
        alloc,
        &[
            Role::Admin,
            Role::Author,
            Role::Approver,
            Role::Agent,
            Role::Reader,
        ],
    )?;
    Ok(PrincipalSetting {
        name,
        roles,
        digest,
    })
}

/// The agent `admin`, in the pool `Default`.
fn agent(alloc: Global) -> Result<AgentSetting, Memory>
    ensures { IfOk result (λ agent. agent ≡ admin_agent) }
{
    let name = Text::from_str(alloc, "admin")?;
    let pool = Text::from_str(alloc, "Default")?;
    Ok(AgentSetting {
        name,
        pool,
        capabilities: List::new(alloc),
    })
}

/// The pool `Default`, which all pipelines may use and nothing guards.
fn pool(alloc: Global) -> Result<ResourceSetting, Memory>
    ensures { IfOk result (λ pool. pool ≡ default_pool) }
{
    let name = Text::from_str(alloc, "Default")?;
    Ok(ResourceSetting {
        key: ResourceKey {
            kind: Kind::Pool,
            name,
        },
        pipelines: None,
        exclusive: false,
        checks: List::new(alloc),
    })
}
