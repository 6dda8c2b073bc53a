//! Keys of files and of resources, arguments and zones.

use crate::short::Short;
use pl_base::{Argument, FileKey, ResourceKey};
use pl_checks::Zone;

impl Short for FileKey {
    fn is_short(&self) -> bool {
        (&self.repo, (&self.git_ref, &self.path)).is_short()
    }
}

impl Short for ResourceKey {
    fn is_short(&self) -> bool {
        (self.kind, &self.name).is_short()
    }
}

impl Short for Argument {
    fn is_short(&self) -> bool {
        (&self.name, &self.text).is_short()
    }
}

impl Short for Zone {
    fn is_short(&self) -> bool {
        self.text().is_short()
    }
}
