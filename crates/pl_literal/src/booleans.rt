ghost use Rattle.std.specs.Prelude.{◌≡◌};
ghost use Rattle.pl_literal.specs.Booleans.{boolean_in, spells};

use pl_base::Text;

/// The Boolean that a text is: True for `true`, `y`, `yes` and `on`, False for `false`, `n`, `no`
/// and `off`, in any case of ASCII's letters (YAML 1.1's type repository, "Boolean
/// Language-Independent Type"). None for every other text. It takes no memory.
pub fn boolean_in(text: &Text) -> Option<bool>
    ensures { result ≡ boolean_in text.now }
{
    let text = text.as_str();
    if spells(text, "true") || spells(text, "y") || spells(text, "yes") || spells(text, "on") {
        return Some(true);
    }
    if spells(text, "false") || spells(text, "n") || spells(text, "no") || spells(text, "off") {
        return Some(false);
    }
    None
}

/// Whether a text is that word, the case of ASCII's letters aside. It takes no memory.
pub fn spells(text: &str, word: &str) -> bool
    ensures { result ≡ spells text.now word.now }
{
    text.eq_ignore_ascii_case(word)
}
