// The day-ahead table: what a checked list of prices answers at an hour.
ghost use Rattle.std.specs.Prelude.{◌≡◌, ◌↔◌, Err, IsSomeAnd, IsTrue};
ghost use Rattle.calendar.specs.Hours.{its_month};
ghost use Rattle.calendar.specs.declared.stamp.Stamp.{Stamp};
ghost use Rattle.tariffs.specs.Source.{Sound};
ghost use Rattle.market.specs.DayAheadTable.{Tabled, list_means, outside_month, table_means};

use crate::price_list::{CheckedPrices, MISSING_PRICE};
use calendar::Stamp;
use tariffs::{PriceSource, SourceFault};

// The hour lies outside the table's month.
const OUTSIDE: SourceFault = SourceFault { cause: 1, depth: 0 };

// The hour's price is missing.
const MISSING: SourceFault = SourceFault { cause: 2, depth: 0 };

// The prices of one month, in the caller's memory; or of none.
#[derive(Clone, Copy)]
pub struct DayAheadTable<'a> {
    pub(crate) list: Option<CheckedPrices<'a>>,
}

impl<'a> CheckedPrices<'a> {
    // The table that answers from these prices, where they lie in the caller's memory.
    pub fn table(self) -> DayAheadTable<'a>
        ensures answer { IsSomeAnd result.list (λ list. (list.month ≡ self.entry.month) × (list.prices.now ≡ self.entry.prices.now)) }
        ensures meaning { (at : Stamp) → table_means result at ≡ list_means self.entry at }
        ensures law { Tabled self.entry.month self.entry.prices.now (table_means result) }
    {
        DayAheadTable { list: Some(self) }
    }

    // Whether an hour lies in the list's month.
    fn covers(self, at: Stamp) -> bool
        ensures { IsTrue result ↔ (its_month at ≡ self.entry.month) }
    {
        at.month() == self.month
    }

    // What the list says of an hour, and that it is sound, as each answer of a source has to be.
    fn price(self, at: Stamp) -> Result<u32, SourceFault>
        ensures answer { result ≡ list_means self.entry at }
        ensures sound { Sound result }
    {
        if !self.covers(at) {
            return Err(OUTSIDE);
        }
        let price = self.prices[at.index()];
        if price == MISSING_PRICE {
            return Err(MISSING);
        }
        Ok(price)
    }
}

impl DayAheadTable<'_> {
    // The table of no month: every hour lies outside it.
    pub fn empty() -> DayAheadTable<'static>
        ensures answer { (at : Stamp) → table_means result at ≡ Err outside_month }
    {
        DayAheadTable { list: None }
    }
}

impl PriceSource for DayAheadTable<'_> {
    ghost means = { table_means };

    // The lemma is for makes from outside too: what any table means at any hour is sound.
    #[tactic(auto, using(crate::proofs::Listed::table_sound))]
    fn price(&mut self, at: Stamp) -> Result<u32, SourceFault> {
        self.list.ok_or(OUTSIDE)?.price(at)
    }
}
