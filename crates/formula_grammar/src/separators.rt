ghost use Rattle.std.specs.Prelude.{◌≡◌};
ghost use Rattle.formula_grammar.specs.Words.{has_point};
ghost use Rattle.formula_grammar.specs.laws.Reading as spec;

use crate::token::Token;
use base_tables::Locale;

/// Whether the locale's decimal sign is a point.
pub fn has_point(locale: Locale) -> bool
    ensures { result ≡ has_point locale }
{
    locale.decimal_sign() == '.'
}

/// Whether the token parts arguments in the locale.
pub fn is_separator(locale: Locale, token: &Token) -> bool
    ensures { result ≡ spec.is_separator locale token.now }
{
    match token {
        Token::Comma => has_point(locale),
        Token::Semicolon => !has_point(locale),
        _ => false,
    }
}
