// The zones of the day and the zone tariff.
use calendar::{CalendarFault, Month, Returned};
use std::ops::Range;
use std::test::Fail;
use tariffs::{PriceSource, ZoneMode, ZoneTariff};

// mode, hours, coefficient in tenths: every hour of a day in each mode
const ZONES: [(u32, Range<usize>, u32); 11] = [
    (1, 0..24, 10),
    (2, 0..7, 5),
    (2, 7..23, 10),
    (2, 23..24, 5),
    (3, 0..7, 4),
    (3, 7..8, 10),
    (3, 8..11, 15),
    (3, 11..20, 10),
    (3, 20..22, 15),
    (3, 22..23, 10),
    (3, 23..24, 4),
];

#[test]
fn coefficients_by_mode_and_hour(rt: HostRuntime) -> Result<(), Fail> {
    let month = Month::new(2026, 3)?;
    for (number, hours, tenths) in ZONES {
        let mode = ZoneMode::try_from(number)?;
        assert_eq!(rt; u32::from(mode), number);
        for hour in hours {
            let at = month.stamp_at(hour).ok_or(CalendarFault::NotInMonth)?;
            assert_eq!(rt; mode.coefficient(at).tenths, tenths);
        }
    }
    Ok(())
}

// mode, base, refusal
const TARIFFS: [(u32, u32, Option<u32>); 9] = [
    (0, 0, Some(12)),
    (1, 0, None),
    (3, 0, None),
    (4, 0, Some(12)),
    (1, 10_000_000, None),
    (1, 10_000_001, Some(12)),
    (4, 10_000_001, Some(12)),
    (u32::MAX, 1, Some(12)),
    (2, u32::MAX, Some(12)),
];

#[test]
fn tariffs_are_refused_by_mode_and_base(rt: HostRuntime) {
    for (mode, base, number) in TARIFFS {
        let refusal = ZoneTariff::new(mode, base).err().map(Returned::from);
        let bare = |number| Returned {
            number,
            places: [0, 0, 0, 0, 0],
        };
        assert_eq!(rt; refusal, number.map(bare));
    }
}

// mode, base in kopiykas per MWh, hour of the month, price in points
const PRICES: [(u32, u32, usize, u32); 7] = [
    (3, 432_000, 0, 1_728_000),
    (3, 432_000, 7, 4_320_000),
    (3, 432_000, 8, 6_480_000),
    (2, 432_000, 23, 2_160_000),
    (2, 432_000, 24, 2_160_000),
    (1, 0, 12, 0),
    (3, 10_000_000, 20, 150_000_000),
];

#[test]
fn a_zone_tariff_is_the_base_times_the_coefficient(rt: HostRuntime) -> Result<(), Fail> {
    let month = Month::new(2026, 3)?;
    for (mode, base, hour, points) in PRICES {
        let mut tariff = ZoneTariff::new(mode, base)?;
        let at = month.stamp_at(hour).ok_or(CalendarFault::NotInMonth)?;
        // asked twice, it answers the same
        assert_eq!(rt; tariff.price(at), Ok(points));
        assert_eq!(rt; tariff.price(at), Ok(points));
    }
    Ok(())
}
