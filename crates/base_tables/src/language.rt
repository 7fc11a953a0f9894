ghost use Rattle.std.specs.Prelude.{◌≡◌, IfSome, IfOk};
ghost use Rattle.base_values.specs.Answers.{ok_or};
ghost use Rattle.base_tables.specs.Tables.{lowered};
ghost use Rattle.base_tables.specs.Language.{language_code, language_of_code, language_name, language_of_name, in_language, boolean_text, boolean_of_text};

use base_values::{EditError, Exact};

/// The language of function names, booleans and names of days and months.
#[derive(Clone, Copy, Debug, PartialEq, Eq)]
pub enum Language {
    /// English.
    En,
    /// German.
    De,
    /// French.
    Fr,
    /// Spanish.
    Es,
}

impl Language {
    /// All languages, in the order of their codes.
    pub const ALL: [Language; 4] = [Language::En, Language::De, Language::Fr, Language::Es];

    /// The number of the language in bytes, from 0.
    pub fn code(self) -> u8
        ensures value { result ≡ language_code self }
        ensures back { language_of_code result ≡ Some self }
    {
        match self {
            Language::En => 0,
            Language::De => 1,
            Language::Fr => 2,
            Language::Es => 3,
        }
    }

    /// The language with that number, or `None` where no language has it.
    pub fn from_code(code: u8) -> Option<Language>
        ensures value { result ≡ language_of_code code }
        ensures back { IfSome result (λ language. language_code language ≡ code) }
    {
        Language::ALL.get(usize::from(code)).copied()
    }

    /// The name by which `get_language` finds the language.
    pub fn name(self) -> &'static str
        ensures value { result.now ≡ language_name self }
        ensures back { language_of_name result.now ≡ Some self }
    {
        match self {
            Language::En => "en",
            Language::De => "de",
            Language::Fr => "fr",
            Language::Es => "es",
        }
    }

    /// The word for true or for false, in capitals.
    pub fn boolean(self, value: bool) -> &'static str
        ensures value { result.now ≡ boolean_text self value }
        ensures back { boolean_of_text self result.now ≡ Some value }
    {
        if value {
            self.choose("TRUE", "WAHR", "VRAI", "VERDADERO")
        } else {
            self.choose("FALSE", "FALSCH", "FAUX", "FALSO")
        }
    }

    /// One of four texts, by the language.
    pub(crate) fn choose(
        self,
        en: &'static str,
        de: &'static str,
        fr: &'static str,
        es: &'static str,
    ) -> &'static str
        ensures { result.now ≡ in_language self en.now de.now fr.now es.now }
    {
        match self {
            Language::En => en,
            Language::De => de,
            Language::Fr => fr,
            Language::Es => es,
        }
    }
}

/// The language with that name, spelled exactly.
///
/// `LanguageName` where no language has it.
pub fn get_language(text: &str) -> Result<Language, EditError>
    ensures value { result ≡ ok_or EditError.LanguageName (language_of_name text.now) }
    ensures named { IfOk result (λ language. language_name language ≡ text.now) }
{
    match text {
        "en" => Ok(Language::En),
        "de" => Ok(Language::De),
        "fr" => Ok(Language::Fr),
        "es" => Ok(Language::Es),
        _ => Err(EditError::LanguageName),
    }
}

/// The truth value whose word in the language the text is; A to Z may be capitals or small letters.
pub fn read_boolean(text: &str, language: Language) -> Option<bool>
    ensures value { result ≡ boolean_of_text language text.now }
    ensures named { IfSome result (λ value. lowered (boolean_text language value) ≡ lowered text.now) }
{
    if language.boolean(true).eq_ignore_ascii_case(text) {
        return Some(true);
    }
    if language.boolean(false).eq_ignore_ascii_case(text) {
        return Some(false);
    }
    None
}

impl Exact for Language {
    ghost use Rattle.std.proofs.Common.{rules};
    ghost use Rattle.base_tables.specs.Tables.{lowered};
    ghost use Rattle.base_tables.specs.laws.LanguageEquals.{language_equals};

    ghost copies = { λ a b h. Prim.search rules };

    ghost equals = { language_equals };
}
