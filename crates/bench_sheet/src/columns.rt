// Texts at the right of a column. A width pads a number, so it stands at the number that a text begins with, and is the column's less
// what follows there.
ghost use Rattle.std.specs.Prelude.{Some};
ghost use Rattle.bench_sheet.specs.Columns.{right};

use std::fmt;
use tariffs::{Coefficient, SourceFault};

// A coefficient with its decimal, in a column of 14.
#[derive(Clone, Copy)]
pub struct CoefficientColumn(pub Coefficient);

impl fmt::Display for CoefficientColumn {
    ghost use Rattle.bench_sheet.specs.Rows.{tenths_text};

    ghost output = { λ c. Some (right 14 (tenths_text c.0.tenths)) };

    #[tactic(auto, using(crate::proofs::ColumnTexts::tenths_right))]
    fn fmt<W: fmt::Write>(&self, f: &mut fmt::Formatter<W>) -> fmt::Result {
        let tenths = self.0.tenths;
        write!(f, "{:>12}.{}", tenths / 10, tenths % 10)
    }
}

// A price in points as kopiykas per kWh, in a column of some width; in one of 0 it stands alone.
#[derive(Clone, Copy)]
pub struct PerKwh<const WIDTH: usize>(pub u32);

impl<const WIDTH: usize> fmt::Display for PerKwh<WIDTH> {
    ghost use Rattle.bench_sheet.specs.Rows.{per_kwh};

    ghost output = { λ p. Some (right WIDTH (per_kwh p.0)) };

    fn fmt<W: fmt::Write>(&self, f: &mut fmt::Formatter<W>) -> fmt::Result {
        let PerKwh(points) = *self;
        let whole = WIDTH.saturating_sub(5);
        write!(f, "{:>whole$}.{:04}", points / 10_000, points % 10_000)
    }
}

// What a price source answered, in a column of 13. The words of a fault are longer than that, but not than any column: so this is
// no type for every width, and an answer alone is another.
#[derive(Clone, Copy)]
pub struct AnswerColumn(pub Result<u32, SourceFault>);

impl fmt::Display for AnswerColumn {
    ghost use Rattle.bench_sheet.specs.Rows.{answer_text};

    ghost output = { λ a. Some (right 13 (answer_text a.0)) };

    #[tactic(auto, using(crate::proofs::ColumnTexts::fault_right))]
    fn fmt<W: fmt::Write>(&self, f: &mut fmt::Formatter<W>) -> fmt::Result {
        match self.0 {
            Ok(points) => write!(f, "{}", PerKwh::<13>(points)),
            Err(fault) => write!(f, "{fault}"),
        }
    }
}
