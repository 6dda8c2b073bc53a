ghost use Rattle.std.specs.Prelude.{◌≡◌, false};
ghost use Rattle.pl_cond.specs.Contexts.{AllNeedNone, NeedsNone};

use pl_base::List;
use pl_expr::Expr;
use pl_literal::spells;

/// Whether an expression has the name `variables`. One that hasn't means the same beside any.
#[cycle(needing)]
pub fn has_variables(expr: &Expr) -> bool
    ensures { result ≡ false → NeedsNone expr.now }
{
    match expr {
        Expr::Lit(_) => false,
        Expr::Root(name) => spells(name.as_str(), "variables"),
        Expr::Index(of, at) => has_variables(of.get()) || has_variables(at.get()),
        Expr::Project(of, _) => has_variables(of.get()),
        Expr::Call(_, arguments) => any_has_variables(arguments),
    }
}

#[cycle(needing)]
fn any_has_variables(arguments: &List<Expr>) -> bool
    ensures { result ≡ false → AllNeedNone arguments.now }
{
    for argument in arguments.as_slice() {
        if has_variables(argument) {
            return true;
        }
    }
    false
}
