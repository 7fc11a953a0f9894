ghost use Rattle.std.specs.Prelude.{◌≡◌, map};
ghost use Rattle.base_tables.specs.Calendar.{day_names, short_day_names, month_names, short_month_names};

use crate::locale::Locale;

const ENGLISH_DAYS: [&'static str; 7] = [
    "Sunday",
    "Monday",
    "Tuesday",
    "Wednesday",
    "Thursday",
    "Friday",
    "Saturday",
];

const GERMAN_DAYS: [&'static str; 7] = [
    "Sonntag",
    "Montag",
    "Dienstag",
    "Mittwoch",
    "Donnerstag",
    "Freitag",
    "Samstag",
];

const FRENCH_DAYS: [&'static str; 7] = [
    "dimanche", "lundi", "mardi", "mercredi", "jeudi", "vendredi", "samedi",
];

const SPANISH_DAYS: [&'static str; 7] = [
    "domingo",
    "lunes",
    "martes",
    "miércoles",
    "jueves",
    "viernes",
    "sábado",
];

const ENGLISH_SHORT_DAYS: [&'static str; 7] = ["Sun", "Mon", "Tue", "Wed", "Thu", "Fri", "Sat"];

const GERMAN_SHORT_DAYS: [&'static str; 7] = ["So", "Mo", "Di", "Mi", "Do", "Fr", "Sa"];

const FRENCH_SHORT_DAYS: [&'static str; 7] = [
    "dim.", "lun.", "mar.", "mer.", "jeu.", "ven.", "sam.",
];

const SPANISH_SHORT_DAYS: [&'static str; 7] = ["dom", "lun", "mar", "mié", "jue", "vie", "sáb"];

const ENGLISH_MONTHS: [&'static str; 12] = [
    "January",
    "February",
    "March",
    "April",
    "May",
    "June",
    "July",
    "August",
    "September",
    "October",
    "November",
    "December",
];

const GERMAN_MONTHS: [&'static str; 12] = [
    "Januar",
    "Februar",
    "März",
    "April",
    "Mai",
    "Juni",
    "Juli",
    "August",
    "September",
    "Oktober",
    "November",
    "Dezember",
];

const FRENCH_MONTHS: [&'static str; 12] = [
    "janvier",
    "février",
    "mars",
    "avril",
    "mai",
    "juin",
    "juillet",
    "août",
    "septembre",
    "octobre",
    "novembre",
    "décembre",
];

const SPANISH_MONTHS: [&'static str; 12] = [
    "enero",
    "febrero",
    "marzo",
    "abril",
    "mayo",
    "junio",
    "julio",
    "agosto",
    "septiembre",
    "octubre",
    "noviembre",
    "diciembre",
];

const ENGLISH_SHORT_MONTHS: [&'static str; 12] = [
    "Jan", "Feb", "Mar", "Apr", "May", "Jun", "Jul", "Aug", "Sep", "Oct", "Nov", "Dec",
];

const GERMAN_SHORT_MONTHS: [&'static str; 12] = [
    "Jan", "Feb", "Mär", "Apr", "Mai", "Jun", "Jul", "Aug", "Sep", "Okt", "Nov", "Dez",
];

const FRENCH_SHORT_MONTHS: [&'static str; 12] = [
    "janv.", "févr.", "mars", "avr.", "mai", "juin", "juil.", "août", "sept.", "oct.", "nov.",
    "déc.",
];

const SPANISH_SHORT_MONTHS: [&'static str; 12] = [
    "ene", "feb", "mar", "abr", "may", "jun", "jul", "ago", "sept", "oct", "nov", "dic",
];

impl Locale {
    /// The days of the week, from Sunday.
    pub fn days(self) -> &'static [&'static str]
        ensures { map (λ name. name.now) result.now ≡ day_names self }
    {
        match self {
            Locale::En => &ENGLISH_DAYS,
            Locale::De => &GERMAN_DAYS,
            Locale::Fr => &FRENCH_DAYS,
            Locale::Es => &SPANISH_DAYS,
        }
    }

    /// The short names of the days of the week, from Sunday.
    pub fn short_days(self) -> &'static [&'static str]
        ensures { map (λ name. name.now) result.now ≡ short_day_names self }
    {
        match self {
            Locale::En => &ENGLISH_SHORT_DAYS,
            Locale::De => &GERMAN_SHORT_DAYS,
            Locale::Fr => &FRENCH_SHORT_DAYS,
            Locale::Es => &SPANISH_SHORT_DAYS,
        }
    }

    /// The months, from January.
    pub fn months(self) -> &'static [&'static str]
        ensures { map (λ name. name.now) result.now ≡ month_names self }
    {
        match self {
            Locale::En => &ENGLISH_MONTHS,
            Locale::De => &GERMAN_MONTHS,
            Locale::Fr => &FRENCH_MONTHS,
            Locale::Es => &SPANISH_MONTHS,
        }
    }

    /// The short names of the months, from January.
    pub fn short_months(self) -> &'static [&'static str]
        ensures { map (λ name. name.now) result.now ≡ short_month_names self }
    {
        match self {
            Locale::En => &ENGLISH_SHORT_MONTHS,
            Locale::De => &GERMAN_SHORT_MONTHS,
            Locale::Fr => &FRENCH_SHORT_MONTHS,
            Locale::Es => &SPANISH_SHORT_MONTHS,
        }
    }
}
