//! Look-ups of settings.

ghost use Rattle.std.specs.Prelude.{◌≡◌};
ghost use Rattle.std.specs.Option.{option_copied};
ghost use Rattle.pl_journal.specs.Settings as spec;

use crate::about::Logged;
use crate::journal::Journal;
use crate::looking::fact_of;
use crate::told::{agent_told, file_told, pipeline_told, principal_told, resource_told, text_told};
use pl_base::{Bytes, Digest, FileKey, ResourceKey, Shared, Text};
use pl_facts::{AgentSetting, FileText, PipelineSetting, PrincipalSetting, ResourceSetting};
use pl_log::{Key, SecondKey, Test};

impl Journal {
    /// A file's text, or None where it wasn't put or was removed since. It takes no memory, as no
    /// look-up does.
    pub fn file(&self, key: &FileKey) -> Option<&Bytes>
        ensures { option_copied result ≡ spec.file key.now self.now.facts }
    {
        match self.latest(Key::File(key)) {
            Some(fact) => text_told(&fact.event),
            None => None,
        }
    }

    /// The file of a key as it was put last, for whoever shares it, or None where it wasn't put or
    /// was removed since.
    pub fn file_put(&self, key: &FileKey) -> Option<&Shared<FileText>>
        ensures { option_copied result ≡ spec.file_put key.now self.now.facts }
    {
        match self.latest(Key::File(key)) {
            Some(fact) => file_told(&fact.event),
            None => None,
        }
    }

    /// The pipeline of a name, as it was set last.
    pub fn pipeline(&self, name: &Text) -> Option<&PipelineSetting>
        ensures { option_copied result ≡ spec.pipeline name.now self.now.facts }
    {
        match self.latest(Key::Pipeline(name)) {
            Some(fact) => pipeline_told(&fact.event),
            None => None,
        }
    }

    /// A resource as it was set last, or None where no fact set it.
    pub fn resource_set(&self, key: &ResourceKey) -> Option<&ResourceSetting>
        ensures { option_copied result ≡ spec.resource_set key.now self.now.facts }
    {
        match self.latest(Key::Resource(key)) {
            Some(fact) => resource_told(&fact.event),
            None => None,
        }
    }

    /// A resource: as it was set last, or the built-in pool `Default`. None where there is none:
    /// such a resource permits no pipeline, is not exclusive and has no checks.
    pub fn resource(&self, key: &ResourceKey) -> Option<&ResourceSetting>
        ensures { option_copied result ≡ spec.resource key.now self.now.facts }
    {
        match self.resource_set(key) {
            Some(setting) => Some(setting),
            None if key.cmp(&self.built_in.pool.key).is_eq() => Some(&self.built_in.pool),
            None => None,
        }
    }

    /// An agent as it was set last, or None where no fact set it.
    pub fn agent_set(&self, name: &Text) -> Option<&AgentSetting>
        ensures { option_copied result ≡ spec.agent_set name.now self.now.facts }
    {
        match self.latest(Key::Agent(name)) {
            Some(fact) => agent_told(&fact.event),
            None => None,
        }
    }

    /// An agent: as it was set last, or the built-in agent `admin`.
    pub fn agent(&self, name: &Text) -> Option<&AgentSetting>
        ensures { option_copied result ≡ spec.agent name.now self.now.facts }
    {
        match self.agent_set(name) {
            Some(setting) => Some(setting),
            None if name.cmp(&self.built_in.agent.name).is_eq() => Some(&self.built_in.agent),
            None => None,
        }
    }

    /// A principal other than `admin` as it was set last, or None where no fact set it.
    pub fn principal_set(&self, name: &Text) -> Option<&PrincipalSetting>
        ensures { option_copied result ≡ spec.principal_set name.now self.now.facts }
    {
        match self.latest(Key::Principal(name)) {
            Some(fact) => principal_told(&fact.event),
            None => None,
        }
    }

    /// The principal of a name. `admin` is built in.
    pub fn principal(&self, name: &Text) -> Option<&PrincipalSetting>
        ensures { option_copied result ≡
            spec.principal self.now.admin name.now self.now.facts }
    {
        if name.cmp(&self.built_in.admin.name).is_eq() {
            return Some(&self.built_in.admin);
        }
        self.principal_set(name)
    }

    /// The principal whose token has this digest, or None where no principal's has.
    pub fn principal_with(&self, token: &Digest) -> Option<&PrincipalSetting>
        ensures { option_copied result ≡
            spec.principal_with self.now.admin token.now.bytes self.now.facts }
    {
        if token.bytes.cmp(&self.built_in.admin.digest.bytes).is_eq() {
            return Some(&self.built_in.admin);
        }
        let has = HasToken {
            journal: self,
            token,
        };
        match fact_of(self.log.latest_second_of(SecondKey::Token(token), &has)) {
            Some(fact) => principal_told(&fact.event),
            None => None,
        }
    }
}

/// Facts whose principal has a token still.
#[derive(Clone, Copy)]
struct HasToken<'j> {
    journal: &'j Journal,
    token: &'j Digest,
}

impl Test<Logged> for HasToken<'_> {
    ghost passes = { λ has fact.
        spec.has_token has.journal.now.facts has.token.now.bytes fact.event };

    fn passes(&self, logged: &Logged) -> bool {
        match principal_told(&logged.fact.event) {
            Some(told) => match self.journal.principal_set(&told.name) {
                Some(now) => now.digest.bytes.cmp(&self.token.bytes).is_eq(),
                None => false,
            },
            None => false,
        }
    }
}
