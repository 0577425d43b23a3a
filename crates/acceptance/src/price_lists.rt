// Lists of day-ahead prices at their edges, and the tables made of them.
use calendar::{CalendarFault, Returned, Stamp};
use market::{DayAheadTable, PriceList, PriceListFault};
use std::alloc::Global;
use std::test::Fail;
use tariffs::{PriceSource, SourceFault};

// What stands for a missing price, as the format writes it: the library's constant is under test.
const MARK: u32 = 0xffff_ffff;

// Refusal number, day and hour of a list of 4,000,000 points an hour, with some numbers put in, where it is refused.
fn refusal(
    heap: Global,
    year: u16,
    month: u8,
    length: usize,
    changes: &[(usize, u32)],
) -> Result<Option<(u32, u32, u32)>, Fail> {
    let mut prices = vec![in heap; 4_000_000; length]?;
    for (index, price) in changes {
        let place = prices.get_mut(*index);
        *place.ok_or_else(|| Fail::new("no such hour"))? = *price;
    }
    let list = PriceList {
        year,
        month,
        prices: prices.as_slice(),
    };
    Ok(
        list.check().err().map(|fault| {
            let Returned { number, places } = Returned::from(fault);
            (number, places[0], places[1])
        }),
    )
}

// year, month, length, the numbers put in, and the answer
const LISTS: [(u16, u8, usize, &[(usize, u32)], Option<(u32, u32, u32)>); 27] = [
    (2026, 1, 744, &[], None),
    // the highest price, and one more
    (2026, 1, 744, &[(0, 150_000_000)], None),
    (2026, 1, 744, &[(0, 150_000_001)], Some((11, 1, 0))),
    (2026, 1, 744, &[(743, 150_000_001)], Some((11, 31, 23))),
    (2026, 1, 744, &[(24, 150_000_001)], Some((11, 2, 0))),
    // the mark, and one less
    (2026, 1, 744, &[(25, MARK)], None),
    (2026, 1, 744, &[(25, 0xffff_fffe)], Some((11, 2, 1))),
    // the first of two, and the mark before it
    (
        2026,
        1,
        744,
        &[(40, MARK - 1), (30, 150_000_001)],
        Some((11, 2, 6)),
    ),
    (
        2026,
        1,
        744,
        &[(30, MARK), (40, MARK - 1)],
        Some((11, 2, 16)),
    ),
    // one short and one long
    (2026, 1, 743, &[], Some((10, 0, 0))),
    (2026, 1, 745, &[], Some((10, 0, 0))),
    (2026, 1, 0, &[], Some((10, 0, 0))),
    (2024, 2, 695, &[], Some((10, 0, 0))),
    (2024, 2, 696, &[], None),
    (2024, 2, 697, &[], Some((10, 0, 0))),
    (2025, 2, 672, &[(671, MARK - 1)], Some((11, 28, 23))),
    (2025, 2, 696, &[], Some((10, 0, 0))),
    // the months of the account
    (2020, 1, 744, &[], None),
    (2099, 12, 744, &[], None),
    (2019, 12, 744, &[], Some((4, 0, 0))),
    (2100, 1, 744, &[], Some((4, 0, 0))),
    (2026, 0, 744, &[], Some((4, 0, 0))),
    (2026, 13, 744, &[], Some((4, 0, 0))),
    // two causes at once: 4 comes before 10 and 11, and 10 before 11
    (2026, 13, 1, &[(0, 150_000_001)], Some((4, 0, 0))),
    (2026, 13, 744, &[(0, 150_000_001)], Some((4, 0, 0))),
    (2026, 1, 743, &[(0, 150_000_001)], Some((10, 0, 0))),
    (2026, 4, 720, &[(0, MARK), (719, MARK)], None),
];

#[test]
fn lists_are_refused_by_month_then_length_then_price(rt: HostRuntime) -> Result<(), Fail> {
    for (year, month, length, changes, expected) in LISTS {
        assert_eq!(rt;
            refusal(rt.alloc(), year, month, length, changes)?,
            expected
        );
    }
    Ok(())
}

type Answer = Result<u32, SourceFault>;

const OUTSIDE: Answer = Err(SourceFault { cause: 1, depth: 0 });

const MISSING: Answer = Err(SourceFault { cause: 2, depth: 0 });

// a stamp, and what two tables answer there: December 2025 and January 2026, the price being the hour's index, 48 missing
const HOURS: [(u16, u8, u8, u8, Answer, Answer); 11] = [
    // the last hour of a year and the first of the next
    (2025, 12, 31, 23, Ok(743), OUTSIDE),
    (2026, 1, 1, 0, OUTSIDE, Ok(0)),
    (2025, 12, 1, 0, Ok(0), OUTSIDE),
    (2026, 1, 31, 23, OUTSIDE, Ok(743)),
    // next to the missing price, and at it
    (2026, 1, 2, 23, OUTSIDE, Ok(47)),
    (2026, 1, 3, 0, OUTSIDE, MISSING),
    (2026, 1, 3, 1, OUTSIDE, Ok(49)),
    // the same month of another year, and a month further on
    (2024, 12, 31, 23, OUTSIDE, OUTSIDE),
    (2027, 1, 1, 0, OUTSIDE, OUTSIDE),
    (2026, 2, 1, 0, OUTSIDE, OUTSIDE),
    (2025, 11, 30, 23, OUTSIDE, OUTSIDE),
];

#[test]
fn a_table_answers_in_its_month_and_nowhere_else(rt: HostRuntime) -> Result<(), Fail> {
    let mut prices = [0u32; 744];
    for (index, price) in prices.iter_mut().enumerate() {
        *price = if index == 48 {
            MARK
        } else {
            u32::try_from(index)?
        };
    }
    let december = PriceList {
        year: 2025,
        month: 12,
        prices: &prices,
    };
    let january = PriceList {
        year: 2026,
        month: 1,
        prices: &prices,
    };
    let (december, january) = (december.check()?, january.check()?);
    for (year, month, day, hour, first, second) in HOURS {
        let at = Stamp::new(year, month, day, hour)?;
        assert_eq!(rt; december.table().price(at), first);
        assert_eq!(rt; january.table().price(at), second);
        assert_eq!(rt; DayAheadTable::empty().price(at), OUTSIDE);
    }
    Ok(())
}

#[test]
fn a_refusal_has_words(rt: HostRuntime) -> Result<(), Fail> {
    let high = PriceListFault::TooHigh { day: 31, hour: 0 }.to_string(rt.alloc())?;
    assert!(rt; high.as_str() == "the price of day 31, hour 0 is above 150000000 points");
    let length = PriceListFault::WrongLength.to_string(rt.alloc())?;
    assert!(rt; length.as_str() == "the price list's length is not the month's hour count");
    let month = PriceListFault::Calendar(CalendarFault::NoSuchMonth).to_string(rt.alloc())?;
    assert!(rt; month.as_str() == "the year is not 2020 to 2099, or the month not 1 to 12");
    Ok(())
}
