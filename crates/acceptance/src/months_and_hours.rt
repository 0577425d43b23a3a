// The calendar at its edges.
use calendar::{CalendarFault, Date, Month, Returned, Stamp};
use std::test::Fail;

// The refusal's number, where it is one.
fn refusal<T: Drop>(answer: Result<T, CalendarFault>) -> Option<u32> {
    answer.err().map(|fault| Returned::from(fault).number)
}

// year, month, refusal
const MONTHS: [(u16, u8, Option<u32>); 9] = [
    (2019, 12, Some(4)),
    (2020, 1, None),
    (2099, 12, None),
    (2100, 1, Some(4)),
    (2024, 0, Some(4)),
    (2024, 13, Some(4)),
    (0, 1, Some(4)),
    (65535, 255, Some(4)),
    (2024, 6, None),
];

#[test]
fn months_are_refused_outside_their_years(rt: HostRuntime) {
    for (year, month, expected) in MONTHS {
        assert_eq!(rt; refusal(Month::new(year, month)), expected);
    }
}

// year, month, day, hour, refusal of the date, refusal of the stamp
const STAMPS: [(u16, u8, u8, u8, Option<u32>, Option<u32>); 18] = [
    (2024, 2, 29, 0, None, None),
    (2025, 2, 29, 0, Some(25), Some(25)),
    (2025, 2, 28, 23, None, None),
    (2024, 2, 30, 0, Some(25), Some(25)),
    (2024, 1, 0, 0, Some(25), Some(25)),
    (2024, 1, 1, 23, None, None),
    (2024, 1, 1, 24, None, Some(25)),
    (2024, 1, 1, 255, None, Some(25)),
    (2024, 1, 31, 0, None, None),
    (2024, 1, 32, 0, Some(25), Some(25)),
    (2024, 4, 30, 0, None, None),
    (2024, 4, 31, 0, Some(25), Some(25)),
    (2096, 2, 29, 12, None, None),
    (2099, 12, 31, 23, None, None),
    // the month comes before the day and the hour
    (2024, 0, 1, 0, Some(4), Some(4)),
    (2024, 13, 0, 24, Some(4), Some(4)),
    (2019, 2, 29, 24, Some(4), Some(4)),
    (2100, 2, 29, 0, Some(4), Some(4)),
];

#[test]
fn dates_and_stamps_are_refused_by_month_then_day_then_hour(rt: HostRuntime) {
    for (year, month, day, hour, date, stamp) in STAMPS {
        assert_eq!(rt; refusal(Date::new(year, month, day)), date);
        assert_eq!(rt; refusal(Stamp::new(year, month, day, hour)), stamp);
    }
}

// year, month, days, hours, number
const LENGTHS: [(u16, u8, u8, usize, u32); 6] = [
    (2024, 2, 29, 696, 202402),
    (2025, 2, 28, 672, 202502),
    (2020, 1, 31, 744, 202001),
    (2024, 4, 30, 720, 202404),
    (2024, 11, 30, 720, 202411),
    (2099, 12, 31, 744, 209912),
];

#[test]
fn a_month_has_its_days_and_hours(rt: HostRuntime) -> Result<(), Fail> {
    for (year, month, days, hours, number) in LENGTHS {
        // both ends: the first hour, the last, and none past it
        let first = Stamp::new(year, month, 1, 0)?;
        let last = Stamp::new(year, month, days, 23)?;
        let month = Month::new(year, month)?;
        assert_eq!(rt; month.days(), days);
        assert_eq!(rt; month.hours(), hours);
        assert_eq!(rt; u32::from(month), number);
        assert_eq!(rt; Month::try_from(number), Ok(month));
        assert_eq!(rt; month.stamp_at(0), Some(first));
        assert_eq!(rt; first.index(), 0);
        assert_eq!(rt; month.stamp_at(hours - 1), Some(last));
        assert_eq!(rt; last.index(), hours - 1);
        assert!(rt; month.stamp_at(hours).is_none());
        assert!(rt; month.stamp_at(usize::MAX).is_none());
    }
    Ok(())
}

// a month, and the number of the one after it
const NEXT: [(u16, u8, Option<u32>); 4] = [
    (2024, 1, Some(202402)),
    (2024, 12, Some(202501)),
    (2099, 11, Some(209912)),
    (2099, 12, None),
];

#[test]
fn months_follow_each_other(rt: HostRuntime) -> Result<(), Fail> {
    for (year, month, after) in NEXT {
        let next = Month::new(year, month)?.next();
        assert_eq!(rt; next.map(u32::from), after);
    }
    Ok(())
}
