// Piles of sources, of the library's makes and of others.
use crate::{Cached, Constant, Questions, Recorder, ask_each};
use calendar::Stamp;
use market::PriceList;
use std::test::Fail;
use tariffs::{LowerOf, PriceSource, SourceFault, ZoneTariff};

// A price, or the cause and the depth of a fault, in short: the tables have many.
type Answer = Result<u32, (u8, u8)>;

fn shown(answer: Result<u32, SourceFault>) -> Answer {
    answer.map_err(|fault| (fault.cause, fault.depth))
}

#[derive(Clone, Copy, Debug)]
struct NoSuchAnswer;

// The source that always gives such an answer.
fn always(answer: Answer) -> Result<Constant, NoSuchAnswer> {
    let answer = answer.map_err(|(cause, depth)| SourceFault { cause, depth });
    Constant::new(answer).ok_or(NoSuchAnswer)
}

// what may be a constant
const ALLOWED: [(Answer, bool); 7] = [
    (Ok(150_000_000), true),
    (Ok(150_000_001), false),
    (Ok(u32::MAX), false),
    (Err((1, 0)), true),
    (Err((255, 15)), true),
    (Err((255, 16)), false),
    (Err((1, 255)), false),
];

#[test]
fn a_constant_answers_what_a_source_may(rt: HostRuntime) -> Result<(), Fail> {
    let at = Stamp::new(2026, 1, 1, 0)?;
    for (answer, allowed) in ALLOWED {
        let constant = always(answer);
        assert_eq!(rt; constant.is_ok(), allowed);
        if let Ok(constant) = constant {
            let mut source = constant;
            assert_eq!(rt; shown(source.price(at)), answer);
        }
    }
    Ok(assert!(rt; always(Err((0, 0))).is_err()))
}

// first, second, the lower of both, and that through one lower-of more
const PAIRS: [(Answer, Answer, Answer, Answer); 11] = [
    (Ok(5), Ok(7), Ok(5), Ok(5)),
    (Ok(7), Ok(5), Ok(5), Ok(5)),
    (Ok(6), Ok(6), Ok(6), Ok(6)),
    (Ok(0), Ok(150_000_000), Ok(0), Ok(0)),
    // both faulty: the first's
    (Err((9, 2)), Err((8, 5)), Err((9, 3)), Err((9, 4))),
    // one faulty: that one's, and no price
    (Err((9, 0)), Ok(5), Err((9, 1)), Err((9, 2))),
    (Ok(5), Err((8, 3)), Err((8, 4)), Err((8, 5))),
    // the depth rises to 15 and stays
    (Err((255, 13)), Ok(5), Err((255, 14)), Err((255, 15))),
    (Err((1, 14)), Ok(5), Err((1, 15)), Err((1, 15))),
    (Err((1, 15)), Ok(5), Err((1, 15)), Err((1, 15))),
    (Ok(5), Err((1, 15)), Err((1, 15)), Err((1, 15))),
];

#[test]
fn the_lower_of_two(rt: HostRuntime) -> Result<(), Fail> {
    let at = Stamp::new(2026, 1, 1, 0)?;
    let dear = always(Ok(150_000_000))?;
    for (first, second, once, twice) in PAIRS {
        let (first, second) = (always(first)?, always(second)?);
        let mut lower = LowerOf { first, second };
        assert_eq!(rt; shown(lower.price(at)), once);
        // a pile, on either side
        let mut pile = LowerOf {
            first: LowerOf { first, second },
            second: dear,
        };
        assert_eq!(rt; shown(pile.price(at)), twice);
        let mut pile = LowerOf {
            first: dear,
            second: LowerOf { first, second },
        };
        assert_eq!(rt; shown(pile.price(at)), twice);
    }
    Ok(())
}

// the four sources of a pile three deep, the first at the bottom, and the answer
const PILES: [([Answer; 4], Answer); 5] = [
    ([Ok(4), Ok(3), Ok(2), Ok(9)], Ok(2)),
    ([Err((7, 0)), Ok(3), Ok(2), Ok(9)], Err((7, 3))),
    ([Ok(4), Err((6, 0)), Ok(2), Ok(9)], Err((6, 3))),
    ([Ok(4), Ok(3), Err((5, 0)), Err((9, 9))], Err((5, 2))),
    ([Ok(4), Ok(3), Ok(2), Err((4, 0))], Err((4, 1))),
];

#[test]
fn a_pile_three_deep(rt: HostRuntime) -> Result<(), Fail> {
    let at = Stamp::new(2026, 1, 1, 0)?;
    for ([a, b, c, d], answer) in PILES {
        let (a, b, c, d) = (always(a)?, always(b)?, always(c)?, always(d)?);
        let mut pile = LowerOf {
            first: LowerOf {
                first: LowerOf {
                    first: a,
                    second: b,
                },
                second: c,
            },
            second: d,
        };
        assert_eq!(rt; shown(pile.price(at)), answer);
    }
    Ok(())
}

// day and hour of January 2026 in the order of asking, the answer, and whether the second source is asked
const QUESTIONS: [(u8, u8, Answer, bool); 7] = [
    (1, 8, Ok(5_000_000), true),
    (1, 8, Ok(5_000_000), true),
    (1, 6, Ok(1_728_000), true),
    (2, 0, Err((2, 1)), false),
    (2, 0, Err((2, 1)), false),
    (2, 1, Ok(1_728_000), true),
    (1, 8, Ok(5_000_000), true),
];

#[test]
fn a_cache_and_recorders_through_a_lower_of(rt: HostRuntime) -> Result<(), Fail> {
    let mut prices = [5_000_000u32; 744];
    // the mark of a missing price, as the format writes it
    prices[24] = 0xffff_ffff;
    let list = PriceList {
        year: 2026,
        month: 1,
        prices: &prices,
    };
    let checked = list.check()?;
    let tariff = ZoneTariff::new(3, 432_000)?;
    let mut lower = LowerOf {
        first: Recorder {
            source: Cached::new(checked.table()),
            questions: Questions::none(rt.alloc()),
        },
        second: Recorder {
            source: tariff,
            questions: Questions::none(rt.alloc()),
        },
    };
    let mut first = Vec::new(rt.alloc());
    let mut second = Vec::new(rt.alloc());
    for (day, hour, _, both) in QUESTIONS {
        let at = Stamp::new(2026, 1, day, hour)?;
        first.push(at)?;
        if both {
            second.push(at)?;
        }
    }
    let answers = ask_each(rt.alloc(), &mut lower, first.as_slice())?;
    assert_eq!(rt; answers.len(), QUESTIONS.len());
    for (answer, (_, _, expected, _)) in answers.iter().zip(QUESTIONS.iter()) {
        assert_eq!(rt; shown(*answer), *expected);
    }
    let LowerOf {
        first: table,
        second: tariff,
    } = lower;
    assert!(rt; table.questions.all()? == first.as_slice());
    assert!(rt; tariff.questions.all()? == second.as_slice());
    Ok(())
}
