// The texts that the sheet's lines are made of.
ghost use Rattle.std.specs.Prelude.{Some};
ghost use Rattle.bench_sheet.specs.Rows.{answer_text, hour_start, stamp_text};

use crate::columns::PerKwh;
use calendar::Stamp;
use std::fmt;
use tariffs::SourceFault;

// The start of an hour, as a clock shows it.
#[derive(Clone, Copy)]
pub struct HourStart(pub u8);

impl fmt::Display for HourStart {
    ghost output = { λ h. Some (hour_start h.0) };

    #[tactic(auto, using(crate::proofs::Options::hour_written))]
    fn fmt<W: fmt::Write>(&self, f: &mut fmt::Formatter<W>) -> fmt::Result {
        let HourStart(hour) = *self;
        write!(f, "{hour:02}:00")
    }
}

// A date and the start of an hour.
#[derive(Clone, Copy)]
pub struct DateAndHour(pub Stamp);

impl fmt::Display for DateAndHour {
    ghost output = { λ s. Some (stamp_text s.0) };

    #[tactic(auto, using(crate::proofs::Options::number_two_digits))]
    fn fmt<W: fmt::Write>(&self, f: &mut fmt::Formatter<W>) -> fmt::Result {
        let Stamp {
            year,
            month,
            day,
            hour,
        } = self.0;
        write!(f, "{year}-{month:02}-{day:02} {}", HourStart(hour))
    }
}

// What a price source answered: a price per kWh, or a fault.
#[derive(Clone, Copy)]
pub struct Answer(pub Result<u32, SourceFault>);

impl fmt::Display for Answer {
    ghost output = { λ a. Some (answer_text a.0) };

    #[tactic(auto, using(crate::proofs::ColumnTexts::right_of_none))]
    fn fmt<W: fmt::Write>(&self, f: &mut fmt::Formatter<W>) -> fmt::Result {
        match self.0 {
            Ok(points) => write!(f, "{}", PerKwh::<0>(points)),
            Err(fault) => write!(f, "{fault}"),
        }
    }
}
