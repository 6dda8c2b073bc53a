ghost use Rattle.std.specs.Prelude.{◌≡◌, IfOk};
ghost use Rattle.std.specs.FinMap as finite;
ghost use Rattle.pl_base.specs.Files.{file_cmp};

use pl_base::{FileKey, Memory, Node, Shared};
use pl_yaml::YamlFault;
use std::alloc::Global;

/// A file that was read: its node, or why it has none.
#[derive(Drop)]
pub enum Parsed {
    Good(Node),
    Bad(YamlFault),
}

/// The files of repositories, read as YAML.
pub trait Files {
    ghost use Rattle.std.specs.FinMap as finite;
    ghost use Rattle.pl_base.specs.Files.{file_cmp};
    ghost use Rattle.pl_calls.specs.declared.files.Parsed.{Parsed};

    /// The files by their keys.
    ghost files: { Self → finite.FinMap file_cmp Parsed };

    /// The file of that key, or None where there is none. The files stay as they are.
    fn node(&mut self, alloc: Global, key: &FileKey) -> Result<Option<Shared<Parsed>>, Memory>
        ensures file { IfOk result (λ file. file ≡ finite.get (files self.old) key.now) }
        ensures same { files self.new ≡ files self.old };
}
