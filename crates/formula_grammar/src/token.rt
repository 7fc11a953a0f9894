use base_decimal::Decimal;
use base_shared::Shared;
use base_tables::Error;
use base_values::{Exact, Text};

/// A corner of a reference or range as the text writes it: the numbers of its lines, counted from
/// 1, each with whether a `$` stands before it.
#[derive(Clone, Copy, Debug, PartialEq, Eq)]
pub struct CellMark {
    pub absolute_row: bool,
    pub row: i32,
    pub absolute_column: bool,
    pub column: i32,
}

impl Exact for CellMark {
    ghost use Rattle.std.proofs.Common.{rules};
    ghost use Rattle.formula_grammar.specs.laws.Equals.{cell_mark_equals};

    ghost copies = { λ a b h. Prim.search rules };

    ghost equals = { cell_mark_equals };
}

/// A token of a formula's text.
///
/// The three signs that part arguments, rows and columns are tokens by their looks: the locale
/// says which of them parts what. Where the decimal sign is a point, `Comma` parts arguments and
/// the columns of an array, `Semicolon` its rows; else `Semicolon` parts arguments and columns,
/// and `Divide`, a slash, rows.
#[derive(Clone, Debug, Drop, PartialEq, Eq)]
pub enum Token {
    /// A number, which is not negative.
    Number(Decimal),
    /// A text, without the quotes around it and with those inside undoubled.
    Text(Text),
    Error(Error),
    /// A word that is taken neither as a cell nor as a range, with its letters.
    Word(Text),
    /// A cell, maybe of a named sheet.
    Reference(Option<Shared<Text>>, CellMark),
    /// A range, maybe of a named sheet, with its corners as written. Of whole columns the rows are
    /// the absolute first and last one, of whole rows the columns.
    Range(Option<Shared<Text>>, CellMark, CellMark),
    /// `=`
    Equal,
    /// `<>`
    NotEqual,
    /// `<`
    Less,
    /// `<=`
    LessOrEqual,
    /// `>`
    Greater,
    /// `>=`
    GreaterOrEqual,
    /// `&`
    Ampersand,
    /// `+`
    Plus,
    /// `-`
    Minus,
    /// `*`
    Times,
    /// `/`
    Divide,
    /// `^`
    Power,
    /// `%`
    Percent,
    /// `@`
    At,
    /// `:`
    Colon,
    /// `#`
    Hash,
    /// `(`
    OpenParenthesis,
    /// `)`
    CloseParenthesis,
    /// `{`
    OpenBrace,
    /// `}`
    CloseBrace,
    /// `[`
    OpenBracket,
    /// `]`
    CloseBracket,
    /// `,`
    Comma,
    /// `;`
    Semicolon,
}

impl Exact for Token {
    ghost use Rattle.std.proofs.Common.{rules};
    ghost use Rattle.formula_grammar.specs.laws.Equals.{token_equals};

    ghost copies = { λ a b h. Prim.search rules };

    ghost equals = { token_equals };
}
