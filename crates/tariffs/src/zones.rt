// The zones of the day: how a base price is weighted by the hour.
ghost use Rattle.std.specs.Prelude.{◌≡◌, ◌<◌, ◌≤◌};
ghost use Rattle.tariffs.specs.Zones.{coefficient as coefficient_of, mode_number, row as row_of, zone_hour};

use crate::coefficient::Coefficient;
use crate::fault::TariffFault;
use calendar::Stamp;

// How many zones the meter tells apart.
#[derive(Clone, Copy, Debug, PartialEq, Eq)]
pub enum ZoneMode {
    SingleZone,
    TwoZone,
    ThreeZone,
}

// Tenths of the base price: a row for each mode, a column for each hour 0 to 23. One flat table is the project's form.
const COEFFICIENTS: [u8; 72] = [
    // one zone: every hour alike
    10, 10, 10, 10, 10, 10, 10, 10, 10, 10, 10, 10, 10, 10, 10, 10, 10, 10, 10, 10, 10, 10, 10, 10,
    // two zones: night 23:00 to 07:00
    5, 5, 5, 5, 5, 5, 5, 10, 10, 10, 10, 10, 10, 10, 10, 10, 10, 10, 10, 10, 10, 10, 10, 5,
    // three zones: night 23:00 to 07:00, peaks 08:00 to 11:00 and 20:00 to 22:00
    4, 4, 4, 4, 4, 4, 4, 10, 15, 15, 15, 10, 10, 10, 10, 10, 10, 10, 10, 10, 15, 15, 10, 4,
];

// The table's column for an hour.
#[tactic(auto, using(calendar::proofs::Clock::hour_below))]
fn column(at: Stamp) -> usize
    ensures value { result ≡ zone_hour at }
    ensures bound { result < 24 }
{
    usize::from(at.hour)
}

// The mode that setpoint 4 writes as 1, 2 or 3.
impl TryFrom<u32> for ZoneMode {
    type Error = TariffFault;

    ghost use Rattle.tariffs.specs.Zones.{Moded};

    ghost try_from_gives = { Moded };

    fn try_from(number: u32) -> Result<ZoneMode, TariffFault> {
        match number {
            1 => Ok(ZoneMode::SingleZone),
            2 => Ok(ZoneMode::TwoZone),
            3 => Ok(ZoneMode::ThreeZone),
            _ => Err(TariffFault::NoSuchTariff),
        }
    }
}

// 1, 2 or 3. By arms and not by discriminants, so that each number stands as in the definition.
impl From<ZoneMode> for u32 {
    ghost from_gives = { λ mode n. n ≡ mode_number mode };

    fn from(mode: ZoneMode) -> u32 {
        match mode {
            ZoneMode::SingleZone => 1,
            ZoneMode::TwoZone => 2,
            ZoneMode::ThreeZone => 3,
        }
    }
}

impl ZoneMode {
    // Where the mode's row of the table begins.
    fn row(self) -> usize
        ensures { result ≡ row_of self }
    {
        match self {
            ZoneMode::SingleZone => 0,
            ZoneMode::TwoZone => 24,
            ZoneMode::ThreeZone => 48,
        }
    }

    // The table at the mode's row and a column of it.
    #[tactic(auto, using(crate::proofs::Coefficients::at_row))]
    fn tenths(self, column: usize) -> u32
        requires { column < 24 }
        ensures { result ≡ coefficient_of self column }
    {
        u32::from(COEFFICIENTS[self.row() + column])
    }

    // What the base price is multiplied by at an hour.
    #[tactic(auto, using(crate::proofs::Coefficients::at_most))]
    pub fn coefficient(self, at: Stamp) -> Coefficient
        ensures answer { result.tenths ≡ coefficient_of self (zone_hour at) }
    {
        Coefficient {
            tenths: self.tenths(column(at)),
        }
    }
}
