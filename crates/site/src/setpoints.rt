// The site's setpoints, checked: every value is allowed, and the installed power is within the contracted.
ghost use Rattle.std.specs.Prelude.{◌≤◌};

mod check;
mod value;

use crate::values::{AccountNumber, Kopiykas, SaleRule, StorageMetering, Watts};
use calendar::Month;
use tariffs::{Rate, ZoneMode};

#[derive(Clone, Copy)]
pub struct Setpoints {
    pub account: AccountNumber,
    pub contracted_power: Watts,
    pub installed_power: Watts,
    pub zone_mode: ZoneMode,
    pub purchase_base: Rate,
    pub free_sale_price: Rate,
    pub sale_rule: SaleRule,
    pub distribution: Rate,
    pub transmission: Rate,
    pub storage: StorageMetering,
    pub first_month: Month,
    pub payout_floor: Kopiykas,
    ghost numbered: { (1 ≤ account.0) × (account.0 ≤ 999999999) },
    // at least 1, since the installed power is, and is not above it
    ghost contracted: { contracted_power.0 ≤ 1000000 },
    ghost installed: { (1 ≤ installed_power.0) × (installed_power.0 ≤ 30000) },
    ghost covered: { installed_power.0 ≤ contracted_power.0 },
    ghost floored: { (1 ≤ payout_floor.0) × (payout_floor.0 ≤ 1000000000) },
}
