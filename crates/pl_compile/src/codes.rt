ghost use Rattle.std.specs.Prelude.{◌≡◌};
ghost use Rattle.pl_compile.specs.Codes.{evaluation_code, expression_code, text_code};

use pl_eval::EvalCode;
use pl_expr::ExprCode;
use pl_line::YamlCode;

/// The code of a text that is no expression, `E1` to `E8`.
pub(crate) fn expression_code(code: ExprCode) -> &'static str
    ensures { result.now ≡ expression_code code }
{
    match code {
        ExprCode::BadChar => "E1",
        ExprCode::UnclosedString => "E2",
        ExprCode::UnknownFunction => "E3",
        ExprCode::BadCount => "E4",
        ExprCode::Trailing => "E5",
        ExprCode::TooDeep => "E6",
        ExprCode::Fraction => "E7",
        ExprCode::NumberRange => "E8",
    }
}

/// The code of an expression without a value, `V1` to `V5`.
pub(crate) fn evaluation_code(code: EvalCode) -> &'static str
    ensures { result.now ≡ evaluation_code code }
{
    match code {
        EvalCode::NotConvertible => "V1",
        EvalCode::FormatIndex => "V2",
        EvalCode::NoLength => "V3",
        EvalCode::TextTooLong => "V4",
        EvalCode::UnknownRoot => "V5",
    }
}

/// The code of a text that isn't in the profile of YAML, `Y1` to `Y13`.
pub(crate) fn text_code(code: YamlCode) -> &'static str
    ensures { result.now ≡ text_code code }
{
    match code {
        YamlCode::NotUtf8 => "Y1",
        YamlCode::TabIndent => "Y2",
        YamlCode::Anchor => "Y3",
        YamlCode::Tag => "Y4",
        YamlCode::ComplexKey => "Y5",
        YamlCode::Documents => "Y6",
        YamlCode::BadIndent => "Y7",
        YamlCode::Unclosed => "Y8",
        YamlCode::BadEscape => "Y9",
        YamlCode::DuplicateKey => "Y10",
        YamlCode::TooDeep => "Y11",
        YamlCode::TooLarge => "Y12",
        YamlCode::NoEntry => "Y13",
    }
}
