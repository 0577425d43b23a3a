// A month of the account: the year is 2020 to 2099 and the month 1 to 12.
ghost use Rattle.std.specs.Prelude.{◌≡◌, true};
ghost use Rattle.calendar.specs.Calendar.{is_month};

use crate::fault::CalendarFault;

#[derive(Clone, Copy, Debug, PartialEq, Eq)]
pub struct Month {
    pub year: u16,
    pub month: u8,
    ghost real: { is_month year month ≡ true },
}

impl Month {
    ghost use Rattle.std.specs.Prelude.{◌≡◌, true, IfOk};
    ghost use Rattle.calendar.specs.Calendar.{days as days_of, is_month, within};
    ghost use Rattle.calendar.specs.Hours.{checked_month, month as month_of, next_month};

    // The month of a year, or refusal 4.
    pub fn new(year: u16, month: u8) -> Result<Month, CalendarFault>
        ensures answer { result ≡ checked_month year month }
        ensures parts { IfOk result (λ m. (m.year ≡ year) × (m.month ≡ month)) }
    {
        if !(2020..=2099).contains(&year) || !(1..=12).contains(&month) {
            return Err(CalendarFault::NoSuchMonth);
        }
        Ok(Month { year, month })
    }

    // The month of numbers that are known to name one. Not a part of its callers, so that a wrong number there fails at a fact.
    pub(crate) fn of(year: u16, month: u8) -> Month
        requires { is_month year month ≡ true }
        ensures { result ≡ month_of year month }
    {
        Month { year, month }
    }

    // How many days the month has.
    pub fn days(self) -> u8
        ensures answer { result ≡ days_of self.year self.month }
    {
        match self.month {
            2 if self.year % 4 == 0 => 29,
            2 => 28,
            4 | 6 | 9 | 11 => 30,
            _ => 31,
        }
    }

    // Whether the month has such a day.
    pub(crate) fn has_day(self, day: u8) -> bool
        ensures { result ≡ within 1 (days_of self.year self.month) day }
    {
        (1..=self.days()).contains(&day)
    }

    // The month after; none after December 2099.
    pub fn next(self) -> Option<Month>
        ensures answer { result ≡ next_month self }
    {
        if self.month == 12 {
            Month::new(self.year + 1, 1).ok()
        } else {
            Month::new(self.year, self.month + 1).ok()
        }
    }
}

// Year × 100 + month.
impl From<Month> for u32 {
    ghost use Rattle.std.specs.Prelude.{◌≡◌};
    ghost use Rattle.calendar.specs.Calendar.{number};

    ghost from_gives = { λ m n. n ≡ number m.year m.month };

    fn from(month: Month) -> u32 {
        u32::from(month.year) * 100 + u32::from(month.month)
    }
}

// The month that year × 100 + month writes, or refusal 4.
impl TryFrom<u32> for Month {
    type Error = CalendarFault;

    ghost use Rattle.std.specs.Prelude.{◌≡◌};
    ghost use Rattle.calendar.specs.Hours.{numbered_month};

    ghost try_from_gives = { λ n r. r ≡ numbered_month n };

    fn try_from(number: u32) -> Result<Month, CalendarFault> {
        let year = u16::try_from(number / 100).map_err(|_| CalendarFault::NoSuchMonth)?;
        Month::new(year, (number % 100) as u8)
    }
}
