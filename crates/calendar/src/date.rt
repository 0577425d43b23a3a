// A day of a month of the account.
ghost use Rattle.std.specs.Prelude.{◌≡◌, true};
ghost use Rattle.calendar.specs.Calendar.{is_date};

use crate::fault::CalendarFault;
use crate::month::Month;

#[derive(Clone, Copy, Debug, PartialEq, Eq)]
pub struct Date {
    pub year: u16,
    pub month: u8,
    pub day: u8,
    ghost real: { is_date year month day ≡ true },
}

impl Date {
    ghost use Rattle.std.specs.Prelude.{◌≡◌, true, IfOk};
    ghost use Rattle.calendar.specs.Calendar.{is_date};
    ghost use Rattle.calendar.specs.Hours.{checked_date, date as date_of};

    // A day of a month: refusal 4 where there is no such month, then 25 where the month has no such day.
    pub fn new(year: u16, month: u8, day: u8) -> Result<Date, CalendarFault>
        ensures answer { result ≡ checked_date year month day }
        ensures parts { IfOk result (λ d. (d.year ≡ year) × (d.month ≡ month) × (d.day ≡ day)) }
    {
        if !Month::new(year, month)?.has_day(day) {
            return Err(CalendarFault::NotInMonth);
        }
        Ok(Date { year, month, day })
    }

    // The day of numbers that are known to name one. Not a part of its callers, so that a wrong number there fails at a fact.
    pub(crate) fn of(year: u16, month: u8, day: u8) -> Date
        requires { is_date year month day ≡ true }
        ensures { result ≡ date_of year month day }
    {
        Date { year, month, day }
    }
}
