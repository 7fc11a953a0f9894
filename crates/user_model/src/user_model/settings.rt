//! The settings of a workbook, the language in which it is shown, and colours in its theme.

ghost use Rattle.std.specs.Prelude.{◌≡◌, ◌≢◌, false, string_bytes, Err, Ok, OnOk, OnErr};
ghost use Rattle.base_values.specs.Answers.{Edits, Returns, map_ok};
ghost use Rattle.base_values.specs.declared.EditError.TheVariants.{NoMemory};
ghost use Rattle.base_tables.specs.Language.{language_name};
ghost use Rattle.base_tables.specs.Locale.{locale_name};
ghost use Rattle.base_tables.specs.Zone.{zone_name};
ghost use Rattle.sheet_history.specs.declared.Setting.TheVariants as value;
ghost use Rattle.edit_plans.specs.Edits.{is_silent};
ghost use Rattle.edit_plans.specs.Edits.Edit.{SetSetting};
ghost use Rattle.edit_plans.specs.SettingEdits.{is_own_name};
ghost use Rattle.open_book.specs.Machine.{edit_of, speaking_in};
ghost use Rattle.user_model.specs.Settings.{language_named, language_set, locale_set, resolved_text, zone_set};
ghost use Rattle.open_book.specs.Stands.{Moves, OnStates, Steps};
ghost use Rattle.open_book.specs.Values.{IsMade, Makes, speaking};

use super::UserModel;
use crate::properties::resolved_text;
use base_styles::{Color, Theme};
use base_tables::{Language, get_language, get_locale, get_zone};
use base_values::EditError;
use edit_plans::{plan_setting, plan_title, sheet_edits_go_both_ways};
use open_book::Recalc;
use sheet_grid::Workbook;
use sheet_history::Setting;

/// Whether a workbook has exactly that name already.
fn is_own_name(workbook: &Workbook, name: &str) -> bool
    ensures { result ≡ is_own_name (value.Name name.now) workbook.now }
{
    workbook.name() == name
}

impl<R: Recalc + Drop> UserModel<R> {
    /// Gives the workbook a setting, and records the change.
    fn put_setting(&mut self, setting: Setting) -> Result<(), EditError>
        requires { is_silent (SetSetting setting) self.now.document.book ≡ false }
        ensures next { Steps result self.old.document self.new.document (edit_of (SetSetting setting)) }
        ensures output { OnOk result (IsMade R.Fits self.new) }
        ensures err { OnErr result (self.new ≡ self.old) }
        ensures paused { self.new.paused ≡ self.old.paused }
    {
        // For the proof alone.
        sheet_edits_go_both_ways();
        let book = &self.book;
        let selected = book.view.sheet as usize;
        let plan = plan_setting(book.alloc, &book.workbook, setting);
        self.make(plan, selected)
    }

    /// Gives the workbook another name, and records the change.
    fn put_name(&mut self, name: &str) -> Result<(), EditError>
        requires { is_silent (SetSetting (value.Name name.now)) self.now.document.book ≡ false }
        ensures next { Steps result self.old.document self.new.document (edit_of (SetSetting (value.Name name.now))) }
        ensures output { OnOk result (IsMade R.Fits self.new) }
        ensures err { OnErr result (self.new ≡ self.old) }
        ensures paused { self.new.paused ≡ self.old.paused }
    {
        // For the proof alone.
        sheet_edits_go_both_ways();
        let book = &self.book;
        let selected = book.view.sheet as usize;
        let plan = plan_title(book.alloc, &book.workbook, name);
        self.make(plan, selected)
    }

    /// Names the workbook, and records the change. The name may be any text. Where it is exactly that
    /// already, nothing is done and recorded.
    ///
    /// `NoMemory` alone is an error, and nothing has changed then.
    ///
    /// ```
    /// model.set_name("budget 2027")?;
    /// ```
    pub fn set_name(&mut self, name: &str) -> Result<(), EditError>
        ensures next { Steps result self.old.document self.new.document (edit_of (SetSetting (value.Name name.now))) }
        ensures output { OnOk result (Makes (is_silent (SetSetting (value.Name name.now)) self.old.document.book) R.Fits self.old self.new) }
        ensures err { OnErr result (self.new ≡ self.old) }
        ensures paused { self.new.paused ≡ self.old.paused }
    {
        if is_own_name(&self.book.workbook, name) {
            return Ok(());
        }
        self.put_name(name)
    }

    /// Gives the workbook other theme colours, and records the change, also where they are the same. The
    /// colours that styles name are theirs from then on.
    ///
    /// `NoMemory` alone is an error, and nothing has changed then.
    ///
    /// ```
    /// model.set_theme(&Theme::default())?;
    /// ```
    pub fn set_theme(&mut self, theme: &Theme) -> Result<(), EditError>
        ensures next { Steps result self.old.document self.new.document (edit_of (SetSetting (value.Theme theme.now))) }
        ensures output { OnOk result (IsMade R.Fits self.new) }
        ensures err { OnErr result (self.new ≡ self.old) }
        ensures paused { self.new.paused ≡ self.old.paused }
    {
        self.put_setting(Setting::Theme(*theme))
    }

    /// Gives the workbook the locale of a name, in which numbers and lists are written and read, and records
    /// the change, also where it is the same. What cells hold stays.
    ///
    /// `LocaleName` where no locale has that name, else `NoMemory` where there is not enough. An error
    /// changes nothing. docs/SCRIPT.md lists the names.
    ///
    /// ```
    /// model.set_locale("de")?;
    /// ```
    pub fn set_locale(&mut self, locale: &str) -> Result<(), EditError>
        ensures next { Steps result self.old.document self.new.document (locale_set locale.now) }
        ensures output { OnOk result (IsMade R.Fits self.new) }
        ensures err { OnErr result (self.new ≡ self.old) }
        ensures paused { self.new.paused ≡ self.old.paused }
    {
        match get_locale(locale) {
            Ok(found) => self.put_setting(Setting::Locale(found)),
            Err(error) => Err(error),
        }
    }

    /// Gives the workbook the time zone of a name, and records the change, also where it is the same.
    ///
    /// `ZoneName` where no time zone has that name, else `NoMemory` where there is not enough. An error
    /// changes nothing. docs/SCRIPT.md lists the names.
    ///
    /// ```
    /// model.set_timezone("Europe/Berlin")?;
    /// ```
    pub fn set_timezone(&mut self, zone: &str) -> Result<(), EditError>
        ensures next { Steps result self.old.document self.new.document (zone_set zone.now) }
        ensures output { OnOk result (IsMade R.Fits self.new) }
        ensures err { OnErr result (self.new ≡ self.old) }
        ensures paused { self.new.paused ≡ self.old.paused }
    {
        match get_zone(zone) {
            Ok(found) => self.put_setting(Setting::Zone(found)),
            Err(error) => Err(error),
        }
    }

    /// Shows the workbook in another language.
    fn put_language(&mut self, language: Language)
        ensures { self.new ≡ speaking self.old language }
    {
        self.book.language = language;
    }

    /// Shows the workbook in a language that was looked up, or refuses as the look-up does.
    fn speak(&mut self, found: Result<Language, EditError>) -> Result<(), EditError>
        requires { found ≢ Err NoMemory }
        ensures spoken { Edits result self.old self.new (map_ok (speaking self.old) found) }
        ensures next { OnStates self.old.document (λ state. Moves result self.new.document (speaking_in found state)) }
        ensures err { OnErr result (self.new ≡ self.old) }
        ensures sure { result ≢ Err NoMemory }
    {
        match found {
            Ok(language) => {
                self.put_language(language);
                Ok(())
            }
            Err(error) => Err(error),
        }
    }

    /// Shows the workbook in the language of a name: the words of functions, booleans and errors are read and
    /// printed in it. It is no edit: nothing is recorded or sent, and what was undone can still be made
    /// again. It takes no memory.
    ///
    /// `LanguageName` where no language has that name, and nothing has changed then. docs/SCRIPT.md
    /// lists the names.
    ///
    /// ```
    /// model.set_language("de")?;
    /// ```
    pub fn set_language(&mut self, language: &str) -> Result<(), EditError>
        ensures spoken { Edits result self.old self.new (map_ok (speaking self.old) (language_named language.now)) }
        ensures next { Steps result self.old.document self.new.document (language_set language.now) }
        ensures sure { result ≢ Err NoMemory }
    {
        let found = get_language(language);
        self.speak(found)
    }

    /// The colours that styles of the workbook name. It takes no memory.
    ///
    /// ```
    /// let text_color = model.get_theme().dark1;
    /// ```
    pub fn get_theme(&self) -> Theme
        ensures { result ≡ self.now.document.book.theme }
    {
        self.book.workbook.theme()
    }

    /// A colour as `#RRGGBB`, with capital letters, as the workbook's theme has it, and the empty text where
    /// it is none. `NoMemory` alone is an error.
    ///
    /// ```
    /// let text = model.resolve_color(&Color::Theme(ThemeColor::Accent1))?; // #4472C4 at first
    /// ```
    pub fn resolve_color(&self, color: &Color) -> Result<String, EditError>
        ensures { Returns (map_ok string_bytes result) (Ok (resolved_text self.now.document.book.theme color.now)) }
    {
        resolved_text(self.book.alloc, self.book.workbook.theme(), *color)
    }

    /// The name of the workbook's time zone. It takes no memory.
    ///
    /// ```
    /// let zone = model.get_timezone();
    /// ```
    pub fn get_timezone(&self) -> &'static str
        ensures { result.now ≡ zone_name self.now.document.book.zone }
    {
        self.book.workbook.zone().name()
    }

    /// The name of the workbook's locale. It takes no memory.
    ///
    /// ```
    /// let locale = model.get_locale();
    /// ```
    pub fn get_locale(&self) -> &'static str
        ensures { result.now ≡ locale_name self.now.document.book.locale }
    {
        self.book.workbook.locale().name()
    }

    /// The name of the language in which the workbook is shown. It takes no memory.
    ///
    /// ```
    /// let language = model.get_language();
    /// ```
    pub fn get_language(&self) -> &'static str
        ensures { result.now ≡ language_name self.now.document.language }
    {
        self.book.language.name()
    }
}
