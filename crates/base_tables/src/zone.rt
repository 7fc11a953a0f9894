ghost use Rattle.std.specs.Prelude.{◌≡◌, IfSome, IfOk};
ghost use Rattle.base_values.specs.Answers.{ok_or};
ghost use Rattle.base_tables.specs.Zone.{zone_code, zone_of_code, zone_name, zone_of_name};

use base_values::{EditError, Exact};

/// The time zone of a workbook.
#[derive(Clone, Copy, Debug, PartialEq, Eq)]
pub enum Zone {
    /// `UTC`.
    Utc,
    /// `Europe/Berlin`.
    EuropeBerlin,
    /// `Europe/Paris`.
    EuropeParis,
    /// `Europe/Madrid`.
    EuropeMadrid,
    /// `America/New_York`.
    AmericaNewYork,
    /// `Asia/Tokyo`.
    AsiaTokyo,
}

impl Zone {
    /// All time zones, in the order of their codes.
    pub const ALL: [Zone; 6] = [
        Zone::Utc,
        Zone::EuropeBerlin,
        Zone::EuropeParis,
        Zone::EuropeMadrid,
        Zone::AmericaNewYork,
        Zone::AsiaTokyo,
    ];

    /// The number of the time zone in bytes, from 0.
    pub fn code(self) -> u8
        ensures value { result ≡ zone_code self }
        ensures back { zone_of_code result ≡ Some self }
    {
        match self {
            Zone::Utc => 0,
            Zone::EuropeBerlin => 1,
            Zone::EuropeParis => 2,
            Zone::EuropeMadrid => 3,
            Zone::AmericaNewYork => 4,
            Zone::AsiaTokyo => 5,
        }
    }

    /// The time zone with that number, or `None` where no time zone has it.
    pub fn from_code(code: u8) -> Option<Zone>
        ensures value { result ≡ zone_of_code code }
        ensures back { IfSome result (λ zone. zone_code zone ≡ code) }
    {
        Zone::ALL.get(usize::from(code)).copied()
    }

    /// The name by which `get_zone` finds the time zone.
    pub fn name(self) -> &'static str
        ensures value { result.now ≡ zone_name self }
        ensures back { zone_of_name result.now ≡ Some self }
    {
        match self {
            Zone::Utc => "UTC",
            Zone::EuropeBerlin => "Europe/Berlin",
            Zone::EuropeParis => "Europe/Paris",
            Zone::EuropeMadrid => "Europe/Madrid",
            Zone::AmericaNewYork => "America/New_York",
            Zone::AsiaTokyo => "Asia/Tokyo",
        }
    }

    fn named(text: &str) -> Option<Zone>
        ensures { result ≡ zone_of_name text.now }
    {
        Zone::ALL.iter().copied().find(|zone| zone.name() == text)
    }
}

/// The time zone with that name, spelled exactly.
///
/// `ZoneName` where no time zone has it.
#[tactic(auto, using(crate::specs::laws::Zone::found_zone))]
pub fn get_zone(text: &str) -> Result<Zone, EditError>
    ensures value { result ≡ ok_or EditError.ZoneName (zone_of_name text.now) }
    ensures named { IfOk result (λ zone. zone_name zone ≡ text.now) }
{
    match Zone::named(text) {
        Some(zone) => Ok(zone),
        None => Err(EditError::ZoneName),
    }
}

impl Exact for Zone {
    ghost use Rattle.std.proofs.Common.{rules};
    ghost use Rattle.base_tables.specs.laws.ZoneEquals.{zone_equals};

    ghost copies = { λ a b h. Prim.search rules };

    ghost equals = { zone_equals };
}
