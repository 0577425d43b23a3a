// Why a month, a date or a stamp is refused.
ghost use Rattle.std.specs.Prelude.{◌≡◌, Some};

use crate::returned::Returned;
use std::error::Error;
use std::fmt;

#[derive(Clone, Copy, Debug, PartialEq, Eq)]
pub enum CalendarFault {
    // the year is not 2020 to 2099, or the month not 1 to 12
    NoSuchMonth,
    // the month has no such day, or the day no such hour
    NotInMonth,
}

// The refusal's number and places.
impl From<CalendarFault> for Returned {
    ghost use Rattle.calendar.specs.Faults.{returned_calendar};

    ghost from_gives = { λ fault r. r ≡ returned_calendar fault };

    fn from(fault: CalendarFault) -> Returned {
        Returned::bare(match fault {
            CalendarFault::NoSuchMonth => 4,
            CalendarFault::NotInMonth => 25,
        })
    }
}

// The words for a person. Written out, since a derived message has no bytes that a clause could name.
impl fmt::Display for CalendarFault {
    ghost use Rattle.calendar.specs.Faults.{words_calendar};

    ghost output = { λ f. Some (words_calendar f) };

    fn fmt<W: fmt::Write>(&self, f: &mut fmt::Formatter<W>) -> fmt::Result {
        f.write_str(match self {
            CalendarFault::NoSuchMonth => "the year is not 2020 to 2099, or the month not 1 to 12",
            CalendarFault::NotInMonth => "the month has no such day, or the day no such hour",
        })
    }
}

impl Error for CalendarFault {}
