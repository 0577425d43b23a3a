// A price that is set by hand: whole kopiykas per MWh, 0 to 10,000,000.
ghost use Rattle.std.specs.Prelude.{◌≤◌};

use crate::coefficient::Coefficient;
use crate::fault::TariffFault;

#[derive(Clone, Copy, Debug, PartialEq, Eq)]
pub struct Rate {
    pub kopiykas_per_mwh: u32,
    ghost bounded: { kopiykas_per_mwh ≤ 10000000 },
}

// The rate of so many kopiykas per MWh; none above 10,000,000.
impl TryFrom<u32> for Rate {
    type Error = TariffFault;

    ghost use Rattle.tariffs.specs.Rate.{Rated};

    ghost try_from_gives = { Rated };

    fn try_from(kopiykas_per_mwh: u32) -> Result<Rate, TariffFault> {
        if kopiykas_per_mwh > 10_000_000 {
            return Err(TariffFault::NoSuchTariff);
        }
        Ok(Rate { kopiykas_per_mwh })
    }
}

impl Rate {
    ghost use Rattle.std.specs.Prelude.{◌≡◌, ◌*◌, ◌≤◌};

    // The price in points: the rate, times a coefficient in tenths.
    pub(crate) fn weighted(self, by: Coefficient) -> u32
        ensures value { result ≡ self.kopiykas_per_mwh * by.tenths }
        ensures bound { result ≤ 150000000 }
    {
        self.kopiykas_per_mwh * by.tenths
    }
}
