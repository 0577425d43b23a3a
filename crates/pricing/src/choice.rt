// The standard choice of price sources for a site.
ghost use Rattle.market.specs.DayAheadTable.{table_means};
ghost use Rattle.tariffs.specs.LowerOf.{lower};
ghost use Rattle.tariffs.specs.ZoneTariff.{tariff_means};
ghost use Rattle.pricing.specs.Sale.{sale_means};
ghost use Rattle.pricing.specs.Choice.{Chosen};

use crate::sale::Sale;
use market::DayAheadTable;
use site::{SaleRule, Setpoints};
use tariffs::{LowerOf, ZoneTariff};

// What bought, sold and excess energy is priced by.
#[derive(Drop)]
pub struct StandardChoice<'a> {
    pub purchase: ZoneTariff,
    pub sale: Sale<'a>,
    pub excess: LowerOf<DayAheadTable<'a>, ZoneTariff>,
}

impl<'a> StandardChoice<'a> {
    // The sources of a site and a month's table.
    pub fn new(setpoints: &Setpoints, table: DayAheadTable<'a>) -> StandardChoice<'a>
        ensures answer { Chosen setpoints.now (table_means table.entry) (tariff_means result.purchase) (sale_means result.sale) (lower (table_means result.excess.first) (tariff_means result.excess.second)) }
    {
        let purchase = ZoneTariff {
            mode: setpoints.zone_mode,
            base: setpoints.purchase_base,
        };
        let sale = match setpoints.sale_rule {
            SaleRule::DayAhead => Sale::day_ahead(table),
            SaleRule::CappedDayAhead => Sale::capped(table, purchase),
            SaleRule::FreePrice => Sale::free_price(setpoints.free_sale_price),
        };
        StandardChoice {
            purchase,
            sale,
            excess: LowerOf {
                first: table,
                second: purchase,
            },
        }
    }
}
