// Why a price list is refused.
ghost use Rattle.std.specs.Prelude.{◌≡◌, Some};
ghost use Rattle.market.specs.Faults.{returned_list, words_list};
ghost use Rattle.market.specs.declared.fault.PriceListFault.TheVariants.{Calendar};

use calendar::{CalendarFault, Returned};
use std::error::Error;
use std::fmt;

#[derive(Clone, Copy, Debug, PartialEq, Eq)]
pub enum PriceListFault {
    // the list's year and month
    Calendar(CalendarFault),
    // not as many prices as the month has hours
    WrongLength,
    // the hour of the first price that is above the most and does not stand for a missing one
    TooHigh { day: u8, hour: u8 },
}

// Written out, since a clause names the fault that a `?` makes.
impl From<CalendarFault> for PriceListFault {
    ghost from_gives = { λ fault r. r ≡ Calendar fault };

    fn from(fault: CalendarFault) -> PriceListFault {
        PriceListFault::Calendar(fault)
    }
}

// The refusal's number and places.
impl From<PriceListFault> for Returned {
    ghost from_gives = { λ fault r. r ≡ returned_list fault };

    fn from(fault: PriceListFault) -> Returned {
        match fault {
            PriceListFault::Calendar(fault) => Returned::from(fault),
            PriceListFault::WrongLength => Returned::bare(10),
            PriceListFault::TooHigh { day, hour } => Returned {
                number: 11,
                places: [u32::from(day), u32::from(hour), 0, 0, 0],
            },
        }
    }
}

// The words for a person. Written out, since a derived message has no bytes that a clause could name.
impl fmt::Display for PriceListFault {
    ghost output = { λ f. Some (words_list f) };

    fn fmt<W: fmt::Write>(&self, f: &mut fmt::Formatter<W>) -> fmt::Result {
        match self {
            PriceListFault::Calendar(fault) => write!(f, "{fault}"),
            PriceListFault::WrongLength => f.write_str(
                "the price list's length is not the month's hour count",
            ),
            PriceListFault::TooHigh { day, hour } => write!(
                f,
                "the price of day {day}, hour {hour} is above 150000000 points"
            ),
        }
    }
}

impl Error for PriceListFault {}
