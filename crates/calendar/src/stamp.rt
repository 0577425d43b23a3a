// An hour of a day, named by its start.
ghost use Rattle.std.specs.Prelude.{◌≡◌, true};
ghost use Rattle.calendar.specs.Calendar.{is_hour};

use crate::date::Date;
use crate::fault::CalendarFault;
use crate::month::Month;

#[derive(Clone, Copy, Debug, PartialEq, Eq)]
pub struct Stamp {
    pub year: u16,
    pub month: u8,
    pub day: u8,
    pub hour: u8,
    ghost real: { is_hour year month day hour ≡ true },
}

impl Stamp {
    ghost use Rattle.std.specs.Prelude.{◌≡◌, IfOk};
    ghost use Rattle.calendar.specs.Hours.{checked_stamp, its_date, its_month};

    // An hour of a day: refusal 4 where there is no such month, then 25 where the month has no such day or the day no such hour.
    pub fn new(year: u16, month: u8, day: u8, hour: u8) -> Result<Stamp, CalendarFault>
        ensures answer { result ≡ checked_stamp year month day hour }
        ensures parts { IfOk result (λ s. (s.year ≡ year) × (s.month ≡ month) × (s.day ≡ day) × (s.hour ≡ hour)) }
    {
        if !Date::new(year, month, day)?.has_hour(hour) {
            return Err(CalendarFault::NotInMonth);
        }
        Ok(Stamp {
            year,
            month,
            day,
            hour,
        })
    }

    // The month that the hour lies in.
    pub fn month(self) -> Month
        ensures answer { result ≡ its_month self }
    {
        Month::of(self.year, self.month)
    }

    // The date that the hour lies on.
    pub fn date(self) -> Date
        ensures answer { result ≡ its_date self }
    {
        Date::of(self.year, self.month, self.day)
    }
}
