ghost use Rattle.std.specs.Prelude.{◌≡◌, IfOk};

use crate::expr::Expr;
use pl_base::{Boxed, ExactCopy, List, Memory};
use std::alloc::Global;

#[cycle(copied_expr)]
fn copy_expr(expr: &Expr, alloc: Global) -> Result<Expr, Memory>
    ensures { IfOk result (λ copy. copy ≡ expr.now) }
{
    match expr {
        Expr::Lit(value) => Ok(Expr::Lit(value.copy(alloc)?)),
        Expr::Root(name) => Ok(Expr::Root(name.copy(alloc)?)),
        Expr::Index(of, at) => {
            let of = Boxed::new(alloc, copy_expr(of.get(), alloc)?)?;
            let at = Boxed::new(alloc, copy_expr(at.get(), alloc)?)?;
            Ok(Expr::Index(of, at))
        }
        Expr::Project(of, names) => {
            let of = Boxed::new(alloc, copy_expr(of.get(), alloc)?)?;
            let names = names.copy(alloc)?;
            Ok(Expr::Project(of, names))
        }
        Expr::Call(function, arguments) => {
            let arguments = copy_all(arguments, alloc)?;
            Ok(Expr::Call(*function, arguments))
        }
    }
}

#[cycle(copied_expr)]
fn copy_all(exprs: &List<Expr>, alloc: Global) -> Result<List<Expr>, Memory>
    ensures { IfOk result (λ copy. copy ≡ exprs.now) }
{
    let mut copies = List::new(alloc);
    for expr in exprs.as_slice() {
        copies.push(copy_expr(expr, alloc)?)?;
    }
    Ok(copies)
}

impl ExactCopy for Expr {
    fn copy(&self, alloc: Global) -> Result<Expr, Memory> {
        copy_expr(self, alloc)
    }
}
