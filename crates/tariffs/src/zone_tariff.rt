// A tariff by zones: the base price, weighted by the hour.
ghost use Rattle.tariffs.specs.ZoneTariff.{Checked, zoned};

use crate::fault::{SourceFault, TariffFault};
use crate::rate::Rate;
use crate::source::PriceSource;
use crate::zones::ZoneMode;
use calendar::Stamp;

#[derive(Clone, Copy, Debug, PartialEq, Eq)]
pub struct ZoneTariff {
    pub mode: ZoneMode,
    pub base: Rate,
}

impl ZoneTariff {
    // The tariff of a mode and a base price in kopiykas per MWh, or refusal 12.
    pub fn new(mode: u32, base: u32) -> Result<ZoneTariff, TariffFault>
        ensures answer { Checked mode base result }
    {
        let mode = ZoneMode::try_from(mode)?;
        let base = Rate::try_from(base)?;
        Ok(ZoneTariff { mode, base })
    }
}

impl PriceSource for ZoneTariff {
    ghost means = { λ t. zoned t.mode t.base.kopiykas_per_mwh };

    fn price(&mut self, at: Stamp) -> Result<u32, SourceFault> {
        Ok(self.base.weighted(self.mode.coefficient(at)))
    }
}
