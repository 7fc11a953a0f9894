//! What is true of models that are kept as bytes and opened again.

ghost use Rattle.std.specs.Prelude.{◌≡◌, ◌≢◌, Err, IfErr, IfOk};
ghost use Rattle.base_values.specs.Answers.{ok_or};
ghost use Rattle.base_values.specs.declared.EditError.TheVariants.{LanguageName, NoMemory};
ghost use Rattle.base_tables.specs.Language.{language_of_name};

use crate::UserModel;
use base_values::EditError;
use open_book::Recalc;
use std::alloc::Global;

/// A law with code: a model that is opened from the bytes of another one has an equal workbook. It is
/// refused with `LanguageName` alone, where there is no language of that name, or with `NoMemory`
/// (docs/FORMATS.md, "Bytes").
///
/// ```
/// let copy = opened_again(alloc, &model, "en", ClearAll)?;
/// ```
pub fn opened_again<R: Recalc + Drop, S: Recalc + Drop>(
    alloc: Global,
    model: &UserModel<R>,
    language: &str,
    recalc: S,
) -> Result<UserModel<S>, EditError>
    ensures equal { IfOk result (λ opened. opened.document.book ≡ model.now.document.book) }
    ensures only { IfErr result (λ error. error ≢ NoMemory → ok_or LanguageName (language_of_name language.now) ≡ Err error) }
{
    model.get_model(); // for the proof: its workbook is well-formed
    let bytes = model.to_bytes()?;
    UserModel::from_bytes(alloc, &bytes, language, recalc)
}
