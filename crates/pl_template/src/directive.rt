ghost use Rattle.std.specs.Prelude.{◌≡◌, is_some};
ghost use Rattle.pl_template.specs.Keys.{directive_named, directive_of};

use crate::words::split_word;

/// The words that make a key a directive.
#[derive(Clone, Copy)]
pub enum Directive {
    If,
    ElseIf,
    Else,
    Each,
    Insert,
}

/// The directive of that word, which is exact.
fn directive_named(word: &str) -> Option<Directive>
    ensures { result ≡ directive_named word.now }
{
    match word {
        "if" => Some(Directive::If),
        "elseif" => Some(Directive::ElseIf),
        "else" => Some(Directive::Else),
        "each" => Some(Directive::Each),
        "insert" => Some(Directive::Insert),
        _ => None,
    }
}

/// The directive whose word an expression begins with.
pub fn directive_of(inside: &str) -> Option<Directive>
    ensures { result ≡ directive_of inside.now }
{
    let (word, _behind) = split_word(inside);
    directive_named(word)
}
