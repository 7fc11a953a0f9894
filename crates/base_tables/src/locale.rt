ghost use Rattle.std.specs.Prelude.{◌≡◌, IfSome, IfOk};
ghost use Rattle.base_values.specs.Answers.{ok_or};
ghost use Rattle.base_tables.specs.Locale.{locale_code, locale_of_code, locale_name, locale_of_name, decimal_sign, group_sign, argument_separator, row_separator, column_separator};

use base_values::{EditError, Exact};

/// How numbers and lists are written: the decimal sign, the group sign and the separators.
#[derive(Clone, Copy, Debug, PartialEq, Eq)]
pub enum Locale {
    /// English.
    En,
    /// German.
    De,
    /// French.
    Fr,
    /// Spanish.
    Es,
}

impl Locale {
    /// All locales, in the order of their codes.
    pub const ALL: [Locale; 4] = [Locale::En, Locale::De, Locale::Fr, Locale::Es];

    /// The number of the locale in bytes, from 0.
    pub fn code(self) -> u8
        ensures value { result ≡ locale_code self }
        ensures back { locale_of_code result ≡ Some self }
    {
        match self {
            Locale::En => 0,
            Locale::De => 1,
            Locale::Fr => 2,
            Locale::Es => 3,
        }
    }

    /// The locale with that number, or `None` where no locale has it.
    pub fn from_code(code: u8) -> Option<Locale>
        ensures value { result ≡ locale_of_code code }
        ensures back { IfSome result (λ locale. locale_code locale ≡ code) }
    {
        Locale::ALL.get(usize::from(code)).copied()
    }

    /// The name by which `get_locale` finds the locale: `en`, `de`, `fr` or `es`.
    pub fn name(self) -> &'static str
        ensures value { result.now ≡ locale_name self }
        ensures back { locale_of_name result.now ≡ Some self }
    {
        match self {
            Locale::En => "en",
            Locale::De => "de",
            Locale::Fr => "fr",
            Locale::Es => "es",
        }
    }

    /// The sign between the whole and the fraction of a number.
    pub fn decimal_sign(self) -> char
        ensures { result ≡ decimal_sign self }
    {
        match self {
            Locale::En => '.',
            Locale::De | Locale::Fr | Locale::Es => ',',
        }
    }

    /// The sign between groups of three digits.
    pub fn group_sign(self) -> char
        ensures { result ≡ group_sign self }
    {
        match self {
            Locale::En => ',',
            Locale::De | Locale::Es => '.',
            Locale::Fr => '\u{202F}',
        }
    }

    /// The sign between the arguments of a call.
    pub fn argument_separator(self) -> char
        ensures { result ≡ argument_separator self }
    {
        if self.decimal_sign() == '.' { ',' } else { ';' }
    }

    /// The sign between the rows of an array.
    pub fn row_separator(self) -> char
        ensures { result ≡ row_separator self }
    {
        if self.decimal_sign() == '.' { ';' } else { '/' }
    }

    /// The sign between the columns of an array.
    pub fn column_separator(self) -> char
        ensures { result ≡ column_separator self }
    {
        self.argument_separator()
    }
}

/// The locale with that name, spelled exactly.
///
/// `LocaleName` where no locale has it.
pub fn get_locale(text: &str) -> Result<Locale, EditError>
    ensures value { result ≡ ok_or EditError.LocaleName (locale_of_name text.now) }
    ensures named { IfOk result (λ locale. locale_name locale ≡ text.now) }
{
    match text {
        "en" => Ok(Locale::En),
        "de" => Ok(Locale::De),
        "fr" => Ok(Locale::Fr),
        "es" => Ok(Locale::Es),
        _ => Err(EditError::LocaleName),
    }
}

impl Exact for Locale {
    ghost use Rattle.std.proofs.Common.{rules};
    ghost use Rattle.base_tables.specs.laws.LocaleEquals.{locale_equals};

    ghost copies = { λ a b h. Prim.search rules };

    ghost equals = { locale_equals };
}
