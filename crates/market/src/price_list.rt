// A month's list of day-ahead prices: lent by the caller, and checked once.
ghost use Rattle.std.specs.Prelude.{◌≡◌, length, not, position};
ghost use Rattle.std.specs.List.{AllPass};
ghost use Rattle.calendar.specs.Hours.{hour_count, hours};
ghost use Rattle.market.specs.PriceList.{first_too_high as first_too_high_of, listable};

use crate::fault::PriceListFault;
use calendar::{Month, Stamp};

// No price is higher.
const MOST_POINTS: u32 = 150_000_000;

// What stands in a list for a price that is missing: a number, since lists come in this format.
pub const MISSING_PRICE: u32 = 0xffff_ffff;

// A year, a month and prices in points, in the order of the month's hours; MISSING_PRICE stands for a missing one. Not checked yet.
#[derive(Clone, Copy)]
pub struct PriceList<'a> {
    pub year: u16,
    pub month: u8,
    pub prices: &'a [u32],
}

// A list that the check passes: a price or the mark of a missing one for each hour of a month.
#[derive(Clone, Copy)]
pub struct CheckedPrices<'a> {
    pub month: Month,
    pub prices: &'a [u32],
    ghost as_long: { length prices.now ≡ hour_count month },
    ghost each_may_stand: { AllPass listable prices.now },
}

// Whether a number may stand in a list.
fn may_stand(price: u32) -> bool
    ensures { result ≡ listable price }
{
    price <= MOST_POINTS || price == MISSING_PRICE
}

// The index of the first number that may not stand in a list.
fn first_unlistable(prices: &[u32]) -> Option<usize>
    ensures { result ≡ position (λ price. not (listable price)) prices.now }
{
    prices.iter().position(|&price| !may_stand(price))
}

// The hour of the first number that may not stand in a list, which is as long as its month.
#[tactic(auto, using(crate::proofs::TooHigh::none_too_high, crate::proofs::TooHigh::too_high_at))]
fn first_too_high(month: Month, prices: &[u32]) -> Option<Stamp>
    requires { length prices.now ≡ hour_count month }
    ensures { result ≡ first_too_high_of (hours month) prices.now }
{
    let index = first_unlistable(prices)?;
    month.stamp_at(index)
}

impl<'a> PriceList<'a> {
    ghost use Rattle.std.specs.Prelude.{IfOk};
    ghost use Rattle.calendar.specs.Hours.{month as month_of};
    ghost use Rattle.market.specs.CheckedPrices.{Checked};
    ghost use Rattle.market.specs.DayAheadTable.{Tabled, list_means};

    // Refusal 4 where there is no such month, then 10 where the list is not as long as the month, then 11 at the first price
    // that is too high. No try_from: the name says that the list is checked.
    pub fn check(self) -> Result<CheckedPrices<'a>, PriceListFault>
        ensures answer { Checked self.entry.year self.entry.month self.entry.prices.now result }
        ensures law { IfOk result (λ c. Tabled (month_of self.entry.year self.entry.month) self.entry.prices.now (list_means c)) }
    {
        let month = Month::new(self.year, self.month)?;
        if self.prices.len() != month.hours() {
            return Err(PriceListFault::WrongLength);
        }
        if let Some(at) = first_too_high(month, self.prices) {
            return Err(PriceListFault::TooHigh {
                day: at.day,
                hour: at.hour,
            });
        }
        Ok(CheckedPrices {
            month,
            prices: self.prices,
        })
    }
}
