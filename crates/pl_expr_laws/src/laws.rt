ghost use Rattle.pl_expr_laws.specs.Laws.{HasOneTree, NothingGoesOn, ReadAsSpelled, RefusedHasNone};

/// The grammar's rules give each text one tree at most.
///
/// A text is read as a tree exactly where the rules spell it so and the tree is at most 50 deep
/// (clause `read`). And the rules spell no text as two trees, however deep they are (clause `one`).
pub fn texts_have_one_tree()
    ensures read { ReadAsSpelled }
    ensures one { HasOneTree }
{}

/// What is refused has no tree, and nothing can follow a byte that is called a fault.
///
/// A text that is refused, but for a tree that gets too deep, is spelled as no tree at all (clause
/// `none`). Where the fault is a byte that fits no rule, or one behind a whole expression, no text
/// that begins with the bytes up to and with that byte has a tree, however it goes on and however
/// deep that tree would be (clause `onward`).
pub fn faults_are_final()
    ensures none { RefusedHasNone }
    ensures onward { NothingGoesOn }
{}
