// Lines of a sheet, and what is read of them.
use crate::fault::{LineFault, SheetFault};
use crate::roles::PricedSite;
use crate::rows::{AskedRow, laid_out, message};
use crate::typed::Typed;
use crate::{day_ahead, show_prices};
use calendar::{CalendarFault, Stamp};
use market::PriceList;
use pricing::StandardChoice;
use site::Setpoints;
use std::test::Fail;
use tariffs::PriceSource;

// How many numbers a line has, or why it cannot be read.
fn count(line: &str) -> Result<usize, LineFault> {
    Ok(Typed::none().read_line(line.as_bytes())?.count())
}

const READ: [(&str, usize); 9] = [
    ("", 0),
    ("   ", 0),
    ("# 1 2 3", 0),
    ("7", 1),
    ("4294967295", 1),
    (" 1\t2 3\r", 3),
    ("0007 8#9", 2),
    ("1 2 3 4 5 6 7 8 9 10 11 12", 12),
    ("1 2 3 4 5 6 7 8 9 10 11 12 # 13", 12),
];

#[test]
fn lines_that_are_read(rt: HostRuntime) -> Result<(), Fail> {
    for (line, expected) in READ {
        assert_eq!(rt; count(line), Ok(expected));
    }
    Ok(())
}

const UNREADABLE: [(&str, LineFault); 8] = [
    ("x", LineFault::NotADigit(1)),
    ("1 -2", LineFault::NotADigit(3)),
    ("12,5", LineFault::NotADigit(3)),
    ("1 \u{2116}", LineFault::NotADigit(3)),
    ("4294967296", LineFault::TooLarge(10)),
    ("1 99999999999x", LineFault::TooLarge(12)),
    ("1 2 3 4 5 6 7 8 9 10 11 12 13", LineFault::TooMany),
    // the thirteenth number ends before what cannot be read
    ("1 2 3 4 5 6 7 8 9 10 11 12 13 x", LineFault::TooMany),
];

#[test]
fn lines_that_are_not(rt: HostRuntime) -> Result<(), Fail> {
    for (line, expected) in UNREADABLE {
        assert_eq!(rt; count(line), Err(expected));
    }
    Ok(())
}

#[test]
fn a_sheet_of_several_lines_reads_as_typed(rt: HostRuntime) -> Result<(), Fail> {
    let mut typed = Typed::none();
    for line in [
        "# a sheet",
        "100245 50000",
        "30000",
        "3 432000 300000 # prices",
        "",
        "2 150000 40000 1 202601",
    ] {
        assert!(rt; typed.twelve().is_none());
        typed = typed.read_line(line.as_bytes())?;
    }
    assert_eq!(rt; typed.count(), 11);
    assert!(rt; typed.twelve().is_none());
    typed = typed.read_line(b"10000")?;
    assert_eq!(rt;
        typed.twelve(),
        Some([
            100245, 50000, 30000, 3, 432000, 300000, 2, 150000, 40000, 1, 202601, 10000,
        ])
    );
    Ok(())
}

// Why a sheet is malformed, and the message.
const MESSAGES: [(SheetFault, &str); 4] = [
    (
        SheetFault::Unreadable {
            line: 2,
            fault: LineFault::NotADigit(3),
        },
        "line 2, column 3: not a digit, a blank or a #",
    ),
    (
        SheetFault::Unreadable {
            line: 1,
            fault: LineFault::TooLarge(10),
        },
        "line 1, column 10: a number above 4294967295",
    ),
    (
        SheetFault::Unreadable {
            line: 18_446_744_073_709_551_615,
            fault: LineFault::TooMany,
        },
        "line 18446744073709551615: more than twelve numbers",
    ),
    (
        SheetFault::TooFew { line: 0, count: 0 },
        "after line 0: only 0 of twelve numbers",
    ),
];

#[test]
fn messages_of_malformed_sheets(rt: HostRuntime) -> Result<(), Fail> {
    for (fault, expected) in MESSAGES {
        let error = message(rt.alloc(), fault)?;
        assert_eq!(rt; error.to_string(rt.alloc())?.as_str(), expected);
    }
    Ok(())
}

// The setpoints of the committed sheet.
const SHEET: [u32; 12] = [
    100245, 50000, 30000, 3, 432000, 300000, 2, 150000, 40000, 1, 202601, 10000,
];

// An index of the first month, and the line of its hour.
const ROLES: [(usize, &str); 6] = [
    (
        6,
        "  06:00     172.8000     210.0000     172.8000     300.0000     172.8000",
    ),
    (
        7,
        "  07:00     432.0000     490.0000     432.0000     300.0000     432.0000",
    ),
    (
        8,
        "  08:00     648.0000     560.0000     560.0000     300.0000     560.0000",
    ),
    (
        22,
        "  22:00     432.0000     480.0000     432.0000     300.0000     432.0000",
    ),
    (
        23,
        "  23:00     172.8000     260.0000     172.8000     300.0000     172.8000",
    ),
    (
        24,
        "  00:00     172.8000     145.0000     145.0000     300.0000     145.0000",
    ),
];

// What is asked, and the line with the answer.
const UNPRICED: [(&str, &str); 3] = [
    (
        "outside the table's month",
        "  outside the table's month       2026-02-01 00:00  cause 1, depth 0",
    ),
    (
        "a missing price",
        "  a missing price                 2026-01-01 12:00  cause 2, depth 0",
    ),
    (
        "the same, through a lower-of",
        "  the same, through a lower-of    2026-01-01 12:00  cause 2, depth 1",
    ),
];

#[test]
fn prices_by_role_and_hours_with_no_price(rt: HostRuntime) -> Result<(), Fail> {
    let setpoints = Setpoints::check(SHEET)?;
    let month = setpoints.first_month;
    let prices = day_ahead::held(rt.alloc(), month, &day_ahead::DAY)?;
    let list = PriceList {
        year: month.year,
        month: month.month,
        prices: prices.as_slice(),
    };
    let checked = list.check()?;
    let site = PricedSite {
        setpoints,
        table: checked.table(),
    };
    for (index, line) in ROLES {
        let at = month.stamp_at(index).ok_or(CalendarFault::NotInMonth)?;
        let row = site.priced(at);
        assert_eq!(rt; laid_out(rt.alloc(), row)?.as_str(), line);
    }
    // the three questions with no price go to the table, and to the lower-of for excess energy
    let mut table = checked.table();
    let mut choice = StandardChoice::new(&setpoints, table);
    let [outside, missing, deeper] = UNPRICED;
    let after = Stamp::new(2026, 2, 1, 0)?;
    let noon = Stamp::new(2026, 1, 1, 12)?;
    let asked = [
        (outside, after, table.price(after)),
        (missing, noon, table.price(noon)),
        (deeper, noon, choice.excess.price(noon)),
    ];
    for ((what, line), at, answer) in asked {
        let row = AskedRow { what, at, answer };
        assert_eq!(rt; laid_out(rt.alloc(), row)?.as_str(), line);
    }
    show_prices(&rt, &setpoints)?;
    Ok(())
}
