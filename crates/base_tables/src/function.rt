ghost use Rattle.std.specs.Prelude.{◌≡◌, IfSome};
ghost use Rattle.base_tables.specs.declared.function.Function.{Function};
ghost use Rattle.base_tables.specs.Tables.{lowered};
ghost use Rattle.base_tables.specs.Function.{function_code, function_of_code, function_name, function_of_name};

use crate::language::Language;
use crate::tables::entry;
use base_values::Exact;

/// A function that formulas call by a name of the language.
#[derive(Clone, Copy, Debug, PartialEq, Eq)]
pub enum Function {
    /// `SUM`
    Sum,
    /// `IF`
    If,
    /// `AND`
    And,
    /// `OR`
    Or,
    /// `NOT`
    Not,
    /// `TRUE`
    True,
    /// `FALSE`
    False,
    /// `MIN`
    Min,
    /// `MAX`
    Max,
    /// `ABS`
    Abs,
    /// `SQRT`
    Sqrt,
    /// `AVERAGE`
    Average,
    /// `COUNT`
    Count,
    /// `ROUND`
    Round,
    /// `DATE`
    Date,
    /// `DAY`
    Day,
    /// `MONTH`
    Month,
    /// `WEEKDAY`
    Weekday,
    /// `SUBTOTAL`
    Subtotal,
    /// `ROW`
    Row,
    /// `COLUMN`
    Column,
    /// `LET`
    Let,
}

impl Function {
    /// All functions, in the order of their codes.
    pub const ALL: [Function; 22] = [
        Function::Sum,
        Function::If,
        Function::And,
        Function::Or,
        Function::Not,
        Function::True,
        Function::False,
        Function::Min,
        Function::Max,
        Function::Abs,
        Function::Sqrt,
        Function::Average,
        Function::Count,
        Function::Round,
        Function::Date,
        Function::Day,
        Function::Month,
        Function::Weekday,
        Function::Subtotal,
        Function::Row,
        Function::Column,
        Function::Let,
    ];

    /// The number of the function in bytes, from 0.
    pub fn code(self) -> u8
        ensures value { result ≡ function_code self }
        ensures back { function_of_code result ≡ Some self }
    {
        match self {
            Function::Sum => 0,
            Function::If => 1,
            Function::And => 2,
            Function::Or => 3,
            Function::Not => 4,
            Function::True => 5,
            Function::False => 6,
            Function::Min => 7,
            Function::Max => 8,
            Function::Abs => 9,
            Function::Sqrt => 10,
            Function::Average => 11,
            Function::Count => 12,
            Function::Round => 13,
            Function::Date => 14,
            Function::Day => 15,
            Function::Month => 16,
            Function::Weekday => 17,
            Function::Subtotal => 18,
            Function::Row => 19,
            Function::Column => 20,
            Function::Let => 21,
        }
    }

    /// The function with that number, or `None` where no function has it.
    pub fn from_code(code: u8) -> Option<Function>
        ensures value { result ≡ function_of_code code }
        ensures back { IfSome result (λ function. function_code function ≡ code) }
    {
        entry(&Function::ALL, code)
    }

    /// The name of the function in a language, in capitals.
    pub fn name(self, language: Language) -> &'static str
        ensures { result.now ≡ function_name language self }
    {
        match self {
            Function::Sum => language.choose("SUM", "SUMME", "SOMME", "SUMA"),
            Function::If => language.choose("IF", "WENN", "SI", "SI"),
            Function::And => language.choose("AND", "UND", "ET", "Y"),
            Function::Or => language.choose("OR", "ODER", "OU", "O"),
            Function::Not => language.choose("NOT", "NICHT", "NON", "NO"),
            Function::True => language.choose("TRUE", "WAHR", "VRAI", "VERDADERO"),
            Function::False => language.choose("FALSE", "FALSCH", "FAUX", "FALSO"),
            Function::Min => language.choose("MIN", "MIN", "MIN", "MIN"),
            Function::Max => language.choose("MAX", "MAX", "MAX", "MAX"),
            Function::Abs => language.choose("ABS", "ABS", "ABS", "ABS"),
            Function::Sqrt => language.choose("SQRT", "WURZEL", "RACINE", "RAIZ"),
            Function::Average => language.choose("AVERAGE", "MITTELWERT", "MOYENNE", "PROMEDIO"),
            Function::Count => language.choose("COUNT", "ANZAHL", "NB", "CONTAR"),
            Function::Round => language.choose("ROUND", "RUNDEN", "ARRONDI", "REDONDEAR"),
            Function::Date => language.choose("DATE", "DATUM", "DATE", "FECHA"),
            Function::Day => language.choose("DAY", "TAG", "JOUR", "DIA"),
            Function::Month => language.choose("MONTH", "MONAT", "MOIS", "MES"),
            Function::Weekday => language.choose("WEEKDAY", "WOCHENTAG", "JOURSEM", "DIASEM"),
            Function::Subtotal => language.choose(
                "SUBTOTAL",
                "TEILERGEBNIS",
                "SOUS.TOTAL",
                "SUBTOTALES",
            ),
            Function::Row => language.choose("ROW", "ZEILE", "LIGNE", "FILA"),
            Function::Column => language.choose("COLUMN", "SPALTE", "COLONNE", "COLUMNA"),
            Function::Let => language.choose("LET", "LET", "LET", "LET"),
        }
    }
}

fn find_function(text: &str, language: Language) -> Option<Function>
    ensures { result ≡ function_of_name language text.now }
{
    Function::ALL.iter().copied().find(|function| function
        .name(language)
        .eq_ignore_ascii_case(text))
}

/// The function with that name in the language; A to Z may be capitals or small letters. `None` where
/// no function has it.
pub fn function_by_name(text: &str, language: Language) -> Option<Function>
    ensures value { result ≡ function_of_name language text.now }
    ensures named { IfSome result (λ function. lowered (function_name language function) ≡ lowered text.now) }
    ensures read { (function : Function) → lowered (function_name language function) ≡ lowered text.now → result ≡ Some function }
{
    find_function(text, language)
}

impl Exact for Function {
    ghost use Rattle.std.proofs.Common.{rules};
    ghost use Rattle.base_tables.specs.Tables.{lowered};
    ghost use Rattle.base_tables.specs.laws.FunctionEquals.{function_equals};

    ghost copies = { λ a b h. Prim.search rules };

    ghost equals = { function_equals };
}
