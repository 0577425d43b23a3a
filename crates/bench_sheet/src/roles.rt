// What bought, sold and excess energy would be priced at.
ghost use Rattle.std.specs.Prelude.{◌≡◌};
ghost use Rattle.market.specs.DayAheadTable.{table_means};
ghost use Rattle.pricing.specs.Choice.{free_price, purchase_tariff, sold_at};
ghost use Rattle.bench_sheet.specs.Roles.{priced_row, roles_row};

use crate::rows::RolesRow;
use calendar::Stamp;
use market::DayAheadTable;
use pricing::StandardChoice;
use site::{SaleRule, Setpoints};
use tariffs::{PriceSource, SourceFault};

// A site, and the table that its energy is priced by.
#[derive(Clone, Copy)]
pub struct PricedSite<'a> {
    pub setpoints: Setpoints,
    pub table: DayAheadTable<'a>,
}

impl PricedSite<'_> {
    // What the site would be paid for sold energy under a rule.
    fn sale_price(&self, rule: SaleRule, at: Stamp) -> Result<u32, SourceFault>
        ensures { result ≡ sold_at rule (table_means self.now.table) (purchase_tariff self.now.setpoints) (free_price self.now.setpoints) at }
    {
        let mut setpoints = self.setpoints;
        setpoints.sale_rule = rule;
        let mut choice = StandardChoice::new(&setpoints, self.table);
        choice.sale.price(at)
    }

    // An hour's row: bought energy, sold energy under each rule, and excess.
    pub fn priced(&self, at: Stamp) -> RolesRow
        ensures { roles_row result ≡ priced_row self.now.setpoints (table_means self.now.table) at }
    {
        let mut choice = StandardChoice::new(&self.setpoints, self.table);
        RolesRow {
            hour: at.hour,
            bought: choice.purchase.price(at),
            first: self.sale_price(SaleRule::DayAhead, at),
            second: self.sale_price(SaleRule::CappedDayAhead, at),
            third: self.sale_price(SaleRule::FreePrice, at),
            excess: choice.excess.price(at),
        }
    }
}
