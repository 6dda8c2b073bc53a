ghost use Rattle.std.specs.Prelude.{◌≡◌, List, ℕ, Ok};
ghost use Rattle.pl_expr.specs.declared.expr.Expr.{Expr};
ghost use Rattle.pl_expr.specs.declared.expr.Mode.{Mode};
ghost use Rattle.pl_expr.specs.Grammar.{parses};
ghost use Rattle.pl_expr.specs.Given.{IsGiven};
ghost use Rattle.pl_expr.specs.Spelling.{IsText};
ghost use Rattle.pl_expr.specs.Trees.{printed};

/// What holds of every text and every tree in each mode.
///
/// A text that has a tree is spelled so by the rules of the grammar. Its tree is of a stated kind,
/// at most 50 deep. What is printed of a tree of that kind has this tree; and so what is printed of
/// a text's tree has that tree again.
pub fn grammar_laws()
    ensures spelled { (mode : Mode) (bytes : List ℕ) (tree : Expr) → parses mode bytes ≡ Ok tree →
        IsText mode bytes tree }
    ensures given { (mode : Mode) (bytes : List ℕ) (tree : Expr) → parses mode bytes ≡ Ok tree →
        IsGiven mode 50 tree }
    ensures every { (mode : Mode) (tree : Expr) → IsGiven mode 50 tree →
        parses mode (printed tree) ≡ Ok tree }
    ensures again { (mode : Mode) (bytes : List ℕ) (tree : Expr) → parses mode bytes ≡ Ok tree →
        parses mode (printed tree) ≡ Ok tree }
{}
