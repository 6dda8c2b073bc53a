ghost use Rattle.std.specs.Prelude.{◌≡◌};
ghost use Rattle.pl_root.specs.Keys.{root_key};

use pl_base::Text;

/// A key of the root file's mapping.
#[derive(Clone, Copy, Debug, PartialEq, Eq)]
pub enum RootKey {
    Parameters,
    Resources,
    Extends,
    Variables,
    Other,
}

impl RootKey {
    /// What a key is at the root, spelled exactly.
    pub fn of(key: &Text) -> RootKey
        ensures { result ≡ root_key key.now }
    {
        match key.as_str() {
            "parameters" => RootKey::Parameters,
            "resources" => RootKey::Resources,
            "extends" => RootKey::Extends,
            "variables" => RootKey::Variables,
            _ => RootKey::Other,
        }
    }
}
