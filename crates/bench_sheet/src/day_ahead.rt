// The bench's day-ahead list: one day's prices, held for a whole month.
ghost use Rattle.std.specs.Prelude.{◌≡◌, IfOk};
ghost use Rattle.bench_sheet.specs.DayAhead.{held as held_for, price_of};

use calendar::{Month, Stamp};
use market::MISSING_PRICE as MISSING;
use std::alloc::{AllocError, Global};

// Points, from midnight on; the price of 12:00 is missing.
pub const DAY: [u32; 24] = [
    1_450_000, 1_400_000, 1_350_000, 1_350_000, 1_400_000, 1_500_000, 2_100_000, 4_900_000,
    5_600_000, 4_200_000, 2_400_000, 1_200_000, MISSING, 900_000, 1_100_000, 1_900_000, 3_000_000,
    4_600_000, 6_200_000, 7_100_000, 7_400_000, 6_600_000, 4_800_000, 2_600_000,
];

// The price of an hour: that of the day's hour, or missing where the day has none.
fn at_hour(day: &[u32], at: Stamp) -> u32
    ensures { result ≡ price_of day.now at }
{
    day.get(usize::from(at.hour)).copied().unwrap_or(MISSING)
}

// A month each day of which has these prices.
pub fn held(heap: Global, month: Month, day: &[u32]) -> Result<Vec<u32>, AllocError>
    ensures { IfOk result (λ v. v.items ≡ held_for day.now month) }
{
    let mut prices = Vec::new(heap);
    // a chain over the same indices was tried, and its proof did not close
    for index in 0..month.hours() {
        let at = month.stamp_at(index).unwrap();
        prices.push(at_hour(day, at))?;
    }
    Ok(prices)
}
