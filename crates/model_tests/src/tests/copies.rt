// How models begin.
use super::*;

/// How a model with these names is refused.
fn refusal(alloc: Global, locale: &str, zone: &str, language: &str) -> Option<EditError> {
    match UserModel::new_empty(alloc, "book", locale, zone, language, ClearAll) {
        Ok(_) => None,
        Err(error) => Some(error),
    }
}

/// Names of locales, zones and languages are refused in this order.
#[test]
fn names_are_refused(rt: HostRuntime) {
    for (locale, zone, language, error) in [
        ("xx", "xx", "xx", Some(EditError::LocaleName)),
        ("en", "xx", "xx", Some(EditError::ZoneName)),
        ("en", "UTC", "xx", Some(EditError::LanguageName)),
        ("de", "Europe/Berlin", "de", None),
    ] {
        assert_eq!(rt; refusal(rt.alloc(), locale, zone, language), error);
    }
}

pub(super) fn is_new(
    rt: &impl Abort,
    alloc: Global,
    model: &UserModel<ClearAll>,
) -> Result<(), EditError> {
    assert_eq!(rt; model.get_name(), "book");
    assert_eq!(rt; model.get_model().worksheet(0)?.get_name(), "Sheet1");
    assert!(rt; model.get_model().worksheet(1).is_err());
    assert!(rt; !model.can_undo() && !model.can_redo());
    assert_eq!(rt; format!(in alloc; "{model:?}")?.as_str(), "UserModel");
    Ok(())
}

/// A new workbook has its name and one sheet, and nothing to take back.
#[test]
fn a_new_workbook(rt: HostRuntime) -> Result<(), Fail> {
    Ok(run_on_new(&rt, rt.alloc(), Case::NewWorkbook)?)
}
