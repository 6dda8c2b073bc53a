ghost use Rattle.std.specs.Prelude.{◌≡◌, ◌∷◌, [], ◌++◌, ◌+◌, ◌<◌, ◌^◌, ◌-◌, max, map, length, IfOk};
ghost use Rattle.std.specs.Prelude.{OnOk};
ghost use Rattle.pl_expr.specs.Trees.{depth_of, deepest, is_projection};

use crate::expr::{Expr, Function};
use pl_base::{Boxed, List, Memory, Text, Value};
use std::alloc::Global;

/// An expression and how deep it is.
#[derive(Debug, Drop)]
pub struct Tree {
    pub expr: Expr,
    pub depth: u32,
    pub ghost deep: { depth ≡ depth_of expr },
}

/// The arguments of a call and how deep the deepest is.
#[derive(Debug, Drop)]
pub struct Arguments {
    pub list: List<Expr>,
    pub depth: u32,
    pub ghost deep: { depth ≡ deepest (map depth_of list) },
}

impl Tree {
    /// A literal.
    pub fn literal(value: Value) -> Tree
        ensures expr { result.expr ≡ Expr.Lit value }
        ensures depth { result.depth ≡ 1 }
    {
        Tree {
            expr: Expr::Lit(value),
            depth: 1,
        }
    }

    /// A name that stands by itself.
    pub fn root(name: Text) -> Tree
        ensures expr { result.expr ≡ Expr.Root name }
        ensures depth { result.depth ≡ 1 }
    {
        Tree {
            expr: Expr::Root(name),
            depth: 1,
        }
    }

    /// A look-up of the second tree in the first.
    pub fn index(alloc: Global, of: Tree, at: Tree) -> Result<Tree, Memory>
        requires of { of.depth < 2 ^ 32 - 1 }
        requires at { at.depth < 2 ^ 32 - 1 }
        ensures expr { IfOk result (λ tree. tree.expr ≡ Expr.Index of.expr at.expr) }
        ensures depth { IfOk result (λ tree. tree.depth ≡ 1 + max of.depth at.depth) }
    {
        let depth = of.depth.max(at.depth) + 1;
        let of = Boxed::new(alloc, of.expr)?;
        let at = Boxed::new(alloc, at.expr)?;
        Ok(Tree {
            expr: Expr::Index(of, at),
            depth,
        })
    }

    /// A projection of names.
    pub fn project(alloc: Global, of: Tree, names: List<Text>) -> Result<Tree, Memory>
        requires { of.depth < 2 ^ 32 - 1 }
        ensures expr { IfOk result (λ tree. tree.expr ≡ Expr.Project of.expr names) }
        ensures depth { IfOk result (λ tree. tree.depth ≡ 1 + of.depth) }
    {
        let depth = of.depth + 1;
        let of = Boxed::new(alloc, of.expr)?;
        Ok(Tree {
            expr: Expr::Project(of, names),
            depth,
        })
    }

    /// Whether the last tail is a projection.
    pub fn is_projection(&self) -> bool
        ensures { result ≡ is_projection self.now.expr }
    {
        matches!(self.expr, Expr::Project(..))
    }

    /// A call.
    pub fn call(function: Function, arguments: Arguments) -> Tree
        requires { arguments.depth < 2 ^ 32 - 1 }
        ensures expr { result.expr ≡ Expr.Call function arguments.list }
        ensures depth { result.depth ≡ 1 + arguments.depth }
    {
        let depth = arguments.depth + 1;
        Tree {
            expr: Expr::Call(function, arguments.list),
            depth,
        }
    }
}

impl Arguments {
    /// No arguments.
    pub fn new(alloc: Global) -> Arguments
        ensures list { result.list ≡ [] }
        ensures depth { result.depth ≡ 0 }
    {
        Arguments {
            list: List::new(alloc),
            depth: 0,
        }
    }

    /// Puts an argument behind the last one.
    #[tactic(auto, using(crate::proofs::Depths::deepest_push))]
    pub fn push(&mut self, argument: Tree) -> Result<(), Memory>
        ensures list { OnOk result (self.new.list ≡ self.old.list ++ argument.expr ∷ []) }
        ensures depth { OnOk result (self.new.depth ≡ max self.old.depth argument.depth) }
    {
        self.list.push(argument.expr)?;
        self.depth = self.depth.max(argument.depth);
        Ok(())
    }
}
