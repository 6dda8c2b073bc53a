use crate::conversions::same_folded;
use pl_base::{Boxed, List, Text, Value};

/// An expression of Azure Pipelines (Microsoft Learn, "Expressions").
#[cycle(expr)]
#[derive(Debug, Drop)]
pub enum Expr {
    /// A literal. The grammar gives a Boolean, a number, a version or a text.
    Lit(Value),
    /// A name that stands by itself, as `parameters`.
    Root(Text),
    /// A look-up in the first expression's value: `a[b]`, and `a.b`, which is `a['b']`.
    Index(Boxed<Expr>, Boxed<Expr>),
    /// The look-up of the names in each item or property value: `a.*.b`.
    Project(Boxed<Expr>, List<Text>),
    /// A call of a function.
    Call(Function, List<Expr>),
}

/// The functions of the expression language (Microsoft Learn, "Expressions", Functions).
#[derive(Clone, Copy, Debug, PartialEq, Eq)]
pub enum Function {
    Not,
    Length,
    Lower,
    Upper,
    Trim,
    Xor,
    Eq,
    Ne,
    Lt,
    Le,
    Gt,
    Ge,
    Contains,
    StartsWith,
    EndsWith,
    ContainsValue,
    Join,
    Split,
    Replace,
    Iif,
    And,
    Or,
    Coalesce,
    In,
    NotIn,
    Format,
    Always,
    Canceled,
    Failed,
    Succeeded,
    SucceededOrFailed,
}

/// Where an expression stands. Status functions stand in conditions alone.
#[derive(Clone, Copy, Debug, PartialEq, Eq)]
pub enum Mode {
    /// In a template, between `${{` and `}}`.
    Compile,
    /// As a variable's value, between `$[` and `]`.
    Variable,
    /// As a condition.
    Condition,
}

const ALL: [Function; 31] = [
    Function::Not,
    Function::Length,
    Function::Lower,
    Function::Upper,
    Function::Trim,
    Function::Xor,
    Function::Eq,
    Function::Ne,
    Function::Lt,
    Function::Le,
    Function::Gt,
    Function::Ge,
    Function::Contains,
    Function::StartsWith,
    Function::EndsWith,
    Function::ContainsValue,
    Function::Join,
    Function::Split,
    Function::Replace,
    Function::Iif,
    Function::And,
    Function::Or,
    Function::Coalesce,
    Function::In,
    Function::NotIn,
    Function::Format,
    Function::Always,
    Function::Canceled,
    Function::Failed,
    Function::Succeeded,
    Function::SucceededOrFailed,
];

impl Function {
    ghost use Rattle.std.specs.Prelude.{◌≡◌};
    ghost use Rattle.pl_expr.specs.Functions.{name_of, least_of, most_of, stands_in, names, named};
    ghost use Rattle.pl_expr.specs.Functions.{may_follow, takes};

    /// The function's name, in the documents' spelling.
    pub fn name(self) -> &'static str
        ensures { result.now ≡ name_of self }
    {
        match self {
            Function::Not => "not",
            Function::Length => "length",
            Function::Lower => "lower",
            Function::Upper => "upper",
            Function::Trim => "trim",
            Function::Xor => "xor",
            Function::Eq => "eq",
            Function::Ne => "ne",
            Function::Lt => "lt",
            Function::Le => "le",
            Function::Gt => "gt",
            Function::Ge => "ge",
            Function::Contains => "contains",
            Function::StartsWith => "startsWith",
            Function::EndsWith => "endsWith",
            Function::ContainsValue => "containsValue",
            Function::Join => "join",
            Function::Split => "split",
            Function::Replace => "replace",
            Function::Iif => "iif",
            Function::And => "and",
            Function::Or => "or",
            Function::Coalesce => "coalesce",
            Function::In => "in",
            Function::NotIn => "notIn",
            Function::Format => "format",
            Function::Always => "always",
            Function::Canceled => "canceled",
            Function::Failed => "failed",
            Function::Succeeded => "succeeded",
            Function::SucceededOrFailed => "succeededOrFailed",
        }
    }

    /// The least count of arguments.
    pub fn least(self) -> usize
        ensures { result ≡ least_of self }
    {
        match self {
            Function::Always
            | Function::Canceled
            | Function::Failed
            | Function::Succeeded
            | Function::SucceededOrFailed => 0,
            Function::Not
            | Function::Length
            | Function::Lower
            | Function::Upper
            | Function::Trim
            | Function::In
            | Function::NotIn
            | Function::Format => 1,
            Function::Replace | Function::Iif => 3,
            _ => 2,
        }
    }

    /// The greatest count of arguments, where there is one.
    pub fn most(self) -> Option<usize>
        ensures { result ≡ most_of self }
    {
        match self {
            Function::And
            | Function::Or
            | Function::Coalesce
            | Function::In
            | Function::NotIn
            | Function::Format
            | Function::Failed
            | Function::Succeeded
            | Function::SucceededOrFailed => None,
            _ => Some(self.least()),
        }
    }

    /// Whether the function may stand in a text of this mode: a status function stands in a
    /// condition alone.
    pub fn stands_in(self, mode: Mode) -> bool
        ensures { result ≡ stands_in mode self }
    {
        match self {
            Function::Always
            | Function::Canceled
            | Function::Failed
            | Function::Succeeded
            | Function::SucceededOrFailed => mode == Mode::Condition,
            _ => true,
        }
    }

    /// The function of that name in this mode. Letters' case is ignored.
    #[tactic(auto, unfolding(crate::specs::Functions::named))]
    pub fn named(mode: Mode, word: &str) -> Option<Function>
        ensures { result ≡ named mode word.now }
    {
        first_named(&ALL, mode, word)
    }

    /// Whether this is the function of that name in this mode.
    fn is_named(self, mode: Mode, word: &str) -> bool
        ensures { result ≡ names mode word.now self }
    {
        same_folded(self.name(), word) && self.stands_in(mode)
    }

    /// Whether the function takes so many arguments.
    pub fn takes(self, count: usize) -> bool
        ensures { result ≡ takes self count }
    {
        self.least() <= count && self.most().is_none_or(|most| count <= most)
    }

    /// Whether another argument may stand behind so many.
    pub fn takes_more(self, count: usize) -> bool
        ensures { result ≡ may_follow (most_of self) count }
    {
        self.most().is_none_or(|most| count < most)
    }
}

ghost use Rattle.std.specs.Prelude.{◌≡◌, find};
ghost use Rattle.pl_expr.specs.Functions.{names};

#[tactic(auto, using(pl_base::proofs::Finding::find_drop_yes, pl_base::proofs::Finding::find_drop_no))]
fn first_named(functions: &[Function], mode: Mode, word: &str) -> Option<Function>
    ensures { result ≡ find (names mode word.now) functions.now }
{
    for function in functions {
        if function.is_named(mode, word) {
            return Some(*function);
        }
    }
    None
}
