// What bought, sold and excess energy is priced at, by rule and hour.
use calendar::Stamp;
use market::PriceList;
use pricing::StandardChoice;
use site::Setpoints;
use std::test::Fail;
use tariffs::{PriceSource, SourceFault};

type Answer = Result<u32, SourceFault>;

// A missing price: bare from the table, and one deeper through a lower-of.
const MISSING: Answer = Err(SourceFault { cause: 2, depth: 0 });

const DEEPER: Answer = Err(SourceFault { cause: 2, depth: 1 });

// mode 3, base price 432,000 and free price 300,000 kopiykas per MWh, under a sale rule
fn site(rule: u32) -> [u32; 12] {
    [
        1, 50_000, 30_000, 3, 432_000, 300_000, rule, 0, 0, 0, 202_601, 1,
    ]
}

// rule, day and hour of January 2026, and the answers for bought, sold and excess energy
const ROLES: [(u32, u8, u8, [Answer; 3]); 12] = [
    // 5,000,000 points day-ahead: above the night tariff, below the peak tariff, which is above ten tenths of the base
    (1, 1, 6, [Ok(1_728_000), Ok(5_000_000), Ok(1_728_000)]),
    (1, 1, 8, [Ok(6_480_000), Ok(5_000_000), Ok(5_000_000)]),
    (2, 1, 6, [Ok(1_728_000), Ok(1_728_000), Ok(1_728_000)]),
    (2, 1, 7, [Ok(4_320_000), Ok(4_320_000), Ok(4_320_000)]),
    (2, 1, 8, [Ok(6_480_000), Ok(5_000_000), Ok(5_000_000)]),
    (3, 1, 6, [Ok(1_728_000), Ok(3_000_000), Ok(1_728_000)]),
    (3, 1, 8, [Ok(6_480_000), Ok(3_000_000), Ok(5_000_000)]),
    // a missing price: bare from the table, one deeper through a lower-of, and none where the table is not asked
    (1, 2, 0, [Ok(1_728_000), MISSING, DEEPER]),
    (2, 2, 0, [Ok(1_728_000), DEEPER, DEEPER]),
    (3, 2, 0, [Ok(1_728_000), Ok(3_000_000), DEEPER]),
    // a price of 0
    (1, 2, 1, [Ok(1_728_000), Ok(0), Ok(0)]),
    (2, 2, 1, [Ok(1_728_000), Ok(0), Ok(0)]),
];

#[test]
fn each_role_is_priced_by_its_source(rt: HostRuntime) -> Result<(), Fail> {
    let mut prices = [5_000_000u32; 744];
    // the mark of a missing price, as the format writes it
    prices[24] = 0xffff_ffff;
    prices[25] = 0;
    let list = PriceList {
        year: 2026,
        month: 1,
        prices: &prices,
    };
    let checked = list.check()?;
    for (rule, day, hour, [bought, sold, excess]) in ROLES {
        let setpoints = Setpoints::check(site(rule))?;
        let at = Stamp::new(2026, 1, day, hour)?;
        let mut choice = StandardChoice::new(&setpoints, checked.table());
        assert_eq!(rt; choice.purchase.price(at), bought);
        assert_eq!(rt; choice.sale.price(at), sold);
        assert_eq!(rt; choice.excess.price(at), excess);
    }
    Ok(())
}
