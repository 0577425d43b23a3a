// The twelve setpoints at their bounds.
use calendar::Returned;
use site::{Setpoint, SetpointFault, Setpoints};
use std::test::Fail;

// twelve numbers that are allowed; the installed power is the least, so that the contracted can be tried at its bounds
const GOOD: [u32; 12] = [
    100245, 50000, 1, 3, 432000, 300000, 2, 150000, 40000, 1, 202601, 10000,
];

// number and first place of the refusal, where the setpoints are refused
fn refusal(numbers: [u32; 12]) -> Option<(u32, u32)> {
    let fault = Setpoints::check(numbers).err()?;
    let Returned { number, places } = Returned::from(fault);
    Some((number, places[0]))
}

// The good numbers with another one at a setpoint.
fn with(setpoint: u32, value: u32) -> [u32; 12] {
    replaced(GOOD, setpoint, value)
}

fn replaced(numbers: [u32; 12], setpoint: u32, value: u32) -> [u32; 12] {
    let mut numbers = numbers;
    for (number, place) in (1u32..).zip(numbers.iter_mut()) {
        if number == setpoint {
            *place = value;
        }
    }
    numbers
}

// setpoint, its least and greatest value
const BOUNDS: [(u32, u32, u32); 12] = [
    (1, 1, 999_999_999),
    (2, 1, 1_000_000),
    (3, 1, 30_000),
    (4, 1, 3),
    (5, 0, 10_000_000),
    (6, 0, 10_000_000),
    (7, 1, 3),
    (8, 0, 10_000_000),
    (9, 0, 10_000_000),
    (10, 0, 1),
    (11, 202_001, 209_912),
    (12, 1, 1_000_000_000),
];

#[test]
fn each_setpoint_at_its_bounds_and_one_beyond(rt: HostRuntime) {
    for (setpoint, least, most) in BOUNDS {
        let refused = Some((1, setpoint));
        assert_eq!(rt; refusal(with(setpoint, least)), None);
        assert_eq!(rt; refusal(with(setpoint, most)), None);
        assert_eq!(rt; refusal(with(setpoint, most.saturating_add(1))), refused);
        assert_eq!(rt; refusal(with(setpoint, u32::MAX)), refused);
        if least > 0 {
            assert_eq!(rt; refusal(with(setpoint, least - 1)), refused);
        }
    }
}

// first months, and whether they are allowed
const FIRST_MONTHS: [(u32, bool); 8] = [
    (202_012, true),
    (202_013, false),
    (202_100, false),
    (202_101, true),
    (202_112, true),
    (202_199, false),
    (201_912, false),
    (210_001, false),
];

#[test]
fn the_first_month_is_a_month(rt: HostRuntime) {
    for (value, allowed) in FIRST_MONTHS {
        assert_eq!(rt;
            refusal(with(11, value)),
            if allowed { None } else { Some((1, 11)) }
        );
    }
}

// two setpoints and their values, and what is answered
const PAIRS: [(u32, u32, u32, u32, Option<(u32, u32)>); 8] = [
    // the lowest of two that are not allowed
    (3, 0, 9, 10_000_001, Some((1, 3))),
    (12, 0, 1, 0, Some((1, 1))),
    (11, 202_013, 12, 0, Some((1, 11))),
    // a value that is not allowed comes before the powers
    (2, 100, 3, 30_001, Some((1, 3))),
    (2, 0, 3, 1, Some((1, 2))),
    // the powers: equal is allowed, above is not
    (2, 100, 3, 100, None),
    (2, 100, 3, 101, Some((2, 0))),
    (2, 1, 3, 30_000, Some((2, 0))),
];

#[test]
fn two_causes_at_once(rt: HostRuntime) {
    for (one, value, other, second, expected) in PAIRS {
        assert_eq!(rt;
            refusal(replaced(with(one, value), other, second)),
            expected
        );
    }
    // installed above contracted, and a setpoint after them that is not allowed
    let numbers = replaced(replaced(with(2, 1), 3, 2), 12, 0);
    assert_eq!(rt; refusal(numbers), Some((1, 12)));
}

#[test]
fn accepted_setpoints_read_back_as_typed(rt: HostRuntime) -> Result<(), Fail> {
    let setpoints = Setpoints::check(GOOD)?;
    for (setpoint, typed) in Setpoint::all().iter().zip(GOOD.iter()) {
        assert_eq!(rt; setpoints.value(*setpoint), *typed);
    }
    Ok(())
}

#[test]
fn a_refusal_has_words(rt: HostRuntime) -> Result<(), Fail> {
    let named = SetpointFault::NotAllowed(Setpoint::FirstMonth).to_string(rt.alloc())?;
    assert!(rt; named.as_str() == "setpoint 11 (first month) is not allowed");
    let powers = SetpointFault::InstalledAboveContracted.to_string(rt.alloc())?;
    assert!(rt; powers.as_str() == "installed power is above contracted power");
    Ok(())
}
