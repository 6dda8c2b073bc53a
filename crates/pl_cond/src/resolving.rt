ghost use Rattle.std.specs.Prelude.{◌≡◌, IfOk, MatchOption, map, ⊤};
ghost use Rattle.pl_eval.specs.Means.{answer, means};
ghost use Rattle.pl_cond.specs.Contexts.{Fits, bare_in, known_in};
ghost use Rattle.pl_cond.specs.Paths as spec;
ghost use Rattle.pl_cond.specs.Paths.{IsPathOf};
ghost use Rattle.std.specs.Option.{option_copied};
ghost use Rattle.pl_base.specs.declared.value.Value.{Str};
ghost use Rattle.pl_expr.specs.declared.expr.Expr.{Lit, Root};

use crate::context::{Context, root_along};
use crate::paths::Path;
use crate::variables::Variable;
use pl_base::{Boxed, ExactCopy, List, Memory, Text, Value};
use pl_expr::Expr;
use std::alloc::Global;

/// A path with one name more behind it.
fn with_name(alloc: Global, path: Path, name: &Text) -> Result<Path, Memory>
    ensures { IfOk result (λ longer. longer ≡ spec.with_name path name.now) }
{
    let Path { root, mut names } = path;
    names.push(name.copy(alloc)?)?;
    Ok(Path { root, names })
}

fn text_in(value: &Value) -> Option<&Text>
    ensures { MatchOption (option_copied result) ⊤ (λ text. value.now ≡ Str text) }
{
    match value {
        Value::Str(text) => Some(text),
        _ => None,
    }
}

/// The text that an expression is, if it is one.
fn literal(expr: &Expr) -> Option<&Text>
    ensures { MatchOption (option_copied result) ⊤ (λ text. expr.now ≡ Lit (Str text)) }
{
    match expr {
        Expr::Lit(value) => text_in(value),
        _ => None,
    }
}

/// The path that an expression is, if it is one: a name, or a look-up of a text in a path.
fn path_of(alloc: Global, expr: &Expr) -> Result<Option<Path>, Memory>
    ensures { IfOk result (λ path. IsPathOf expr.now path) }
{
    match expr {
        Expr::Root(name) => {
            let root = name.copy(alloc)?;
            let names = List::new(alloc);
            Ok(Some(Path { root, names }))
        }
        Expr::Index(of, at) => match literal(at.get()) {
            Some(name) => match path_of(alloc, of.get())? {
                Some(path) => Ok(Some(with_name(alloc, path, name)?)),
                None => Ok(None),
            },
            None => Ok(None),
        },
        _ => Ok(None),
    }
}

/// The value to which a path of names leads, where an expression is one that is looked up.
fn path_value(
    alloc: Global,
    context: &Context,
    variables: &[Variable],
    expr: &Expr,
) -> Result<Option<Value>, Memory>
    requires { Fits context.now }
    ensures { IfOk result (λ value. MatchOption value ⊤ (λ found.
        means (known_in context.now variables.now) context.now.here expr.now
        ≡ answer context.now.here found)) }
{
    match path_of(alloc, expr)? {
        Some(path) => root_along(alloc, context, variables, &path.root, path.names.as_slice()),
        None => Ok(None),
    }
}

/// A name, or the value that it stands for.
fn root(
    alloc: Global,
    context: &Context,
    variables: &[Variable],
    name: &Text,
) -> Result<Expr, Memory>
    requires { Fits context.now }
    ensures { IfOk result (λ new. means (bare_in context.now) context.now.here new
        ≡ means (known_in context.now variables.now) context.now.here (Root name.now)) }
{
    match root_along(alloc, context, variables, name, &[])? {
        Some(value) => Ok(Expr::Lit(value)),
        None => Ok(Expr::Root(name.copy(alloc)?)),
    }
}

/// An expression with the values of names in their place, so that it means without names what it
/// meant with them. Of what a path of names leads through no more is looked at than it asks for.
#[cycle(resolution)]
pub fn resolve(
    alloc: Global,
    context: &Context,
    variables: &[Variable],
    expr: &Expr,
) -> Result<Expr, Memory>
    requires { Fits context.now }
    ensures { IfOk result (λ new. means (bare_in context.now) context.now.here new
        ≡ means (known_in context.now variables.now) context.now.here expr.now) }
{
    match expr {
        Expr::Lit(value) => Ok(Expr::Lit(value.copy(alloc)?)),
        Expr::Root(name) => root(alloc, context, variables, name),
        Expr::Index(of, at) => match path_value(alloc, context, variables, expr)? {
            Some(value) => Ok(Expr::Lit(value)),
            None => {
                let of = Boxed::new(alloc, resolve(alloc, context, variables, of.get())?)?;
                let at = Boxed::new(alloc, resolve(alloc, context, variables, at.get())?)?;
                Ok(Expr::Index(of, at))
            }
        },
        Expr::Project(of, names) => {
            let of = Boxed::new(alloc, resolve(alloc, context, variables, of.get())?)?;
            Ok(Expr::Project(of, names.copy(alloc)?))
        }
        Expr::Call(function, arguments) => {
            let arguments = resolve_all(alloc, context, variables, arguments)?;
            Ok(Expr::Call(*function, arguments))
        }
    }
}

#[cycle(resolution)]
fn resolve_all(
    alloc: Global,
    context: &Context,
    variables: &[Variable],
    arguments: &List<Expr>,
) -> Result<List<Expr>, Memory>
    requires { Fits context.now }
    ensures { IfOk result (λ new. map (means (bare_in context.now) context.now.here) new
        ≡ map (means (known_in context.now variables.now) context.now.here) arguments.now) }
{
    let mut new = List::new(alloc);
    for argument in arguments.as_slice() {
        new.push(resolve(alloc, context, variables, argument)?)?;
    }
    Ok(new)
}
