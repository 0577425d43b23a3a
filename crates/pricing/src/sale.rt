// The price of sold energy, whatever the rule.
ghost use Rattle.std.specs.Prelude.{◌≡◌};
ghost use Rattle.calendar.specs.declared.stamp.Stamp.{Stamp};
ghost use Rattle.market.specs.DayAheadTable.{table_means};
ghost use Rattle.tariffs.specs.LowerOf.{lower};
ghost use Rattle.tariffs.specs.ZoneTariff.{tariff_means, zoned};
ghost use Rattle.tariffs.specs.declared.zones.ZoneMode.TheVariants.{SingleZone};
ghost use Rattle.pricing.specs.Sale.{sale_means};

use calendar::Stamp;
use market::DayAheadTable;
use tariffs::{LowerOf, PriceSource, Rate, SourceFault, ZoneMode, ZoneTariff};

// What a sale prices by: a case for each rule.
#[derive(Clone, Copy)]
pub(crate) enum Terms<'a> {
    // rule 1: at the table
    DayAhead(DayAheadTable<'a>),
    // rule 2: at the lower of the table and a tariff
    Capped {
        table: DayAheadTable<'a>,
        cap: ZoneTariff,
    },
    // rule 3: at one price for all hours
    FreePrice(ZoneTariff),
}

// One type for every rule. Its terms are closed: only the constructors make them, so that the price under rule 3 is one for all
// hours, and another form can take their place.
#[derive(Clone, Copy)]
pub struct Sale<'a> {
    pub(crate) terms: Terms<'a>,
}

impl<'a> Sale<'a> {
    // Rule 1: at the table.
    pub fn day_ahead(table: DayAheadTable<'a>) -> Sale<'a>
        ensures answer { (at : Stamp) → sale_means result at ≡ table_means table.entry at }
    {
        Sale {
            terms: Terms::DayAhead(table),
        }
    }

    // Rule 2: at the lower of the table and a tariff.
    pub fn capped(table: DayAheadTable<'a>, cap: ZoneTariff) -> Sale<'a>
        ensures answer { (at : Stamp) → sale_means result at ≡ lower (table_means table.entry) (tariff_means cap) at }
    {
        Sale {
            terms: Terms::Capped { table, cap },
        }
    }

    // Rule 3: at one price for all hours.
    pub fn free_price(price: Rate) -> Sale<'static>
        ensures answer { (at : Stamp) → sale_means result at ≡ zoned SingleZone price.kopiykas_per_mwh at }
    {
        Sale {
            terms: Terms::FreePrice(ZoneTariff {
                mode: ZoneMode::SingleZone,
                base: price,
            }),
        }
    }
}

impl PriceSource for Sale<'_> {
    ghost means = { sale_means };

    fn price(&mut self, at: Stamp) -> Result<u32, SourceFault> {
        // the parts are asked as copies: what they mean is kept
        match self.terms {
            Terms::DayAhead(mut table) => table.price(at),
            Terms::Capped {
                table: first,
                cap: second,
            } => LowerOf { first, second }.price(at),
            Terms::FreePrice(mut tariff) => tariff.price(at),
        }
    }
}
