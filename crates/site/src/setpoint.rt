// The twelve setpoints by name.
ghost use Rattle.std.specs.Prelude.{◌≡◌, Some};
ghost use Rattle.site.specs.Setpoint.{all_setpoints};

use std::fmt;

#[derive(Clone, Copy, Debug, PartialEq, Eq)]
pub enum Setpoint {
    AccountNumber,
    ContractedPower,
    InstalledPower,
    ZoneMode,
    PurchaseBase,
    FreeSalePrice,
    SaleRule,
    Distribution,
    Transmission,
    StorageMetered,
    FirstMonth,
    PayoutFloor,
}

impl Setpoint {
    // The twelve, in the order in which they are typed in.
    pub fn all() -> [Setpoint; 12]
        ensures answer { result ≡ all_setpoints }
    {
        [
            Setpoint::AccountNumber,
            Setpoint::ContractedPower,
            Setpoint::InstalledPower,
            Setpoint::ZoneMode,
            Setpoint::PurchaseBase,
            Setpoint::FreeSalePrice,
            Setpoint::SaleRule,
            Setpoint::Distribution,
            Setpoint::Transmission,
            Setpoint::StorageMetered,
            Setpoint::FirstMonth,
            Setpoint::PayoutFloor,
        ]
    }
}

// 1 to 12. By arms and not by discriminants, so that each number stands as in the definition.
impl From<Setpoint> for u32 {
    ghost use Rattle.site.specs.Setpoint.{setpoint_number};

    ghost from_gives = { λ s n. n ≡ setpoint_number s };

    fn from(setpoint: Setpoint) -> u32 {
        match setpoint {
            Setpoint::AccountNumber => 1,
            Setpoint::ContractedPower => 2,
            Setpoint::InstalledPower => 3,
            Setpoint::ZoneMode => 4,
            Setpoint::PurchaseBase => 5,
            Setpoint::FreeSalePrice => 6,
            Setpoint::SaleRule => 7,
            Setpoint::Distribution => 8,
            Setpoint::Transmission => 9,
            Setpoint::StorageMetered => 10,
            Setpoint::FirstMonth => 11,
            Setpoint::PayoutFloor => 12,
        }
    }
}

// The name that a person reads; a width such as `{:<20}` pads it.
impl fmt::Display for Setpoint {
    ghost use Rattle.std.specs.Fmt.{styled_text};
    ghost use Rattle.site.specs.Setpoint.{name};

    ghost output = { λ s. Some (name s) };

    ghost styled_output = { λ s style. Some (styled_text style (name s)) };

    fn fmt<W: fmt::Write>(&self, f: &mut fmt::Formatter<W>) -> fmt::Result {
        f.pad(match self {
            Setpoint::AccountNumber => "account number",
            Setpoint::ContractedPower => "contracted power",
            Setpoint::InstalledPower => "installed power",
            Setpoint::ZoneMode => "zone mode",
            Setpoint::PurchaseBase => "purchase base price",
            Setpoint::FreeSalePrice => "free sale price",
            Setpoint::SaleRule => "sale rule",
            Setpoint::Distribution => "distribution tariff",
            Setpoint::Transmission => "transmission tariff",
            Setpoint::StorageMetered => "storage metered",
            Setpoint::FirstMonth => "first month",
            Setpoint::PayoutFloor => "payout floor",
        })
    }
}
