// Checked setpoints read back as numbers.
ghost use Rattle.std.specs.Prelude.{◌≡◌};
ghost use Rattle.site.specs.Setpoints.{held};

use super::Setpoints;
use crate::setpoint::Setpoint;

impl Setpoints {
    // The number that is held for a setpoint.
    pub fn value(&self, setpoint: Setpoint) -> u32
        ensures answer { result ≡ held self.now setpoint }
    {
        match setpoint {
            Setpoint::AccountNumber => self.account.0,
            Setpoint::ContractedPower => self.contracted_power.0,
            Setpoint::InstalledPower => self.installed_power.0,
            Setpoint::ZoneMode => u32::from(self.zone_mode),
            Setpoint::PurchaseBase => self.purchase_base.kopiykas_per_mwh,
            Setpoint::FreeSalePrice => self.free_sale_price.kopiykas_per_mwh,
            Setpoint::SaleRule => u32::from(self.sale_rule),
            Setpoint::Distribution => self.distribution.kopiykas_per_mwh,
            Setpoint::Transmission => self.transmission.kopiykas_per_mwh,
            Setpoint::StorageMetered => u32::from(self.storage),
            Setpoint::FirstMonth => u32::from(self.first_month),
            Setpoint::PayoutFloor => self.payout_floor.0,
        }
    }
}
