ghost use Rattle.std.specs.Prelude.{◌≡◌, true, IfOk};
ghost use Rattle.pl_eval.specs.Known.{Known};
ghost use Rattle.pl_eval.specs.LookUps.{root_part};
ghost use Rattle.pl_eval.specs.Statuses.{is_status, status_of};

use crate::parts::RootPart;
use pl_base::{List, Memory, Text, Value};
use pl_expr::Function;
use std::alloc::Global;

/// What names stand for in an expression, and how the dependencies of its stage or job ended.
pub trait Names {
    /// The values of the roots by their names in upper case, whether the run is canceled, the
    /// results of all dependencies (None where one hasn't ended), and results by name.
    ghost known: { Self → Known };

    /// What a path of indices finds in the root of that name, the case of the name aside: each is
    /// looked up in what the one before it found, in an array the item at the number that it
    /// converts to, in an object the first property of the name that it converts to. An empty path
    /// finds the root's value. So a part costs no copy of the whole root.
    fn part(&self, alloc: Global, root: &Text, path: &[Value]) -> Result<RootPart, Memory>
        ensures { IfOk result (λ part. part ≡ root_part (known self.now) root.now path.now) };

    /// So many bytes are held besides, and so many units of work are done. Memory where that may not
    /// be.
    fn spend(&self, bytes: u64, work: u64) -> Result<(), Memory>;

    /// What a status function answers: without names over all dependencies, with names over those
    /// of these names, the case aside, where the first result of a name counts and a name without
    /// one has none.
    fn status(&self, function: Function, names: &List<Text>) -> bool
        requires { is_status function ≡ true }
        ensures { result ≡ status_of (known self.now) function names.now };
}
