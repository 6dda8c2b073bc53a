ghost use Rattle.std.specs.Prelude.{◌≡◌, ◌↔◌, ◌++◌, ℕ, List};
ghost use Rattle.pl_template.specs.declared.forms.Piece.{Piece};
ghost use Rattle.pl_template.specs.declared.forms.ScalarForm.TheVariants as scalar;
ghost use Rattle.pl_template.specs.Cutting.{opening, closing, pieces_of};
ghost use Rattle.pl_template.specs.Forms.{form_of};
ghost use Rattle.pl_template.specs.Laws.{IsCut, IsInside, IsLiteral, written};

/// What holds of every text and its form.
///
/// The pieces of a text are exactly those that the rules give: literals in which no `${{` stands,
/// and
/// expressions whose `}}` is the first one outside single quotes. So a text has one list of pieces
/// at
/// most, and what was cut is the text again once it is written. A text is plain exactly where no
/// `${{`
/// stands in it, whole exactly where it is `${{`, such an expression and `}}`, and unclosed exactly
/// where the rules give it no pieces.
pub fn form_laws()
    ensures cut { (text : List ℕ) (pieces : List Piece) →
        (pieces_of text ≡ Some pieces) ↔ IsCut text pieces }
    ensures again { (text : List ℕ) (pieces : List Piece) →
        IsCut text pieces → written pieces ≡ text }
    ensures plain { (text : List ℕ) → (form_of text ≡ scalar.Plain) ↔ IsLiteral text }
    ensures whole { (text inside : List ℕ) → (form_of text ≡ scalar.Whole inside)
        ↔ (IsInside inside × (text ≡ opening ++ (inside ++ closing))) }
    ensures joined { (text : List ℕ) (pieces : List Piece) →
        form_of text ≡ scalar.Joined pieces → IsCut text pieces }
    ensures unclosed { (text : List ℕ) → (form_of text ≡ scalar.Unclosed)
        ↔ ((pieces : List Piece) → ¬ IsCut text pieces) }
{}
