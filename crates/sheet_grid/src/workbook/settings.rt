//! The settings of a workbook: its name, its locale, its time zone and its theme.

ghost use Rattle.std.specs.Prelude.{◌≡◌, Ok};
ghost use Rattle.base_values.specs.Answers.{Changes};

use super::Workbook;
use base_styles::Theme;
use base_tables::{Locale, Zone};
use base_values::{EditError, Text};

impl Workbook {
    /// The colours that styles of the workbook name. It takes no memory.
    pub fn theme(&self) -> Theme
        ensures { result ≡ self.now.theme }
    {
        self.theme
    }

    /// Names the workbook. The name may be any. `NoMemory` alone is an error.
    pub fn set_name(&mut self, name: &str) -> Result<(), EditError>
        ensures { Changes result self.old self.new (Ok (record self.old { name = name.now })) }
    {
        let name = Text::new(String::from_str(self.name.allocator(), name)?);
        self.name = name;
        Ok(())
    }

    /// Sets the locale in which numbers and lists are written. It takes no memory.
    pub fn set_locale(&mut self, locale: Locale)
        ensures { self.new ≡ record self.old { locale = locale } }
    {
        self.locale = locale;
    }

    /// Sets the time zone. It takes no memory.
    pub fn set_zone(&mut self, zone: Zone)
        ensures { self.new ≡ record self.old { zone = zone } }
    {
        self.zone = zone;
    }

    /// Sets the colours that styles of the workbook name. It takes no memory.
    pub fn set_theme(&mut self, theme: &Theme)
        ensures { self.new ≡ record self.old { theme = theme.now } }
    {
        self.theme = *theme;
    }
}
