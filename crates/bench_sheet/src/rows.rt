// The sheet's lines.
ghost use Rattle.std.specs.Prelude.{◌≡◌, IfOk, IfSome, Some, string_bytes};
ghost use Rattle.anyhow.specs.Error.{HasMessage};
ghost use Rattle.bench_sheet.specs.Rows.{asked_row, refusal_row, setpoint_row, unit as unit_of, zone_row};

use crate::columns::{AnswerColumn, CoefficientColumn, PerKwh};
use crate::texts::{Answer, DateAndHour, HourStart};
use calendar::{Returned, Stamp};
use site::{Setpoint, SetpointFault};
use std::alloc::{AllocError, Global};
use std::fmt;
use std::fmt::Display;
use tariffs::{Coefficient, SourceFault};

// A row's line as a text, made before any of it is printed: where its row ends with an error there is none.
pub fn laid_out<R: Display + Drop>(heap: Global, row: R) -> Result<String, AllocError>
    ensures { IfOk result (λ line. IfSome (R.output row) (λ text. string_bytes line ≡ text)) }
{
    row.to_string(heap)
}

// The error whose message is a fault's text. It holds 120 bytes of it.
pub fn message<M: Display + Drop>(heap: Global, fault: M) -> Result<anyhow::Error, AllocError>
    ensures { IfOk result (λ error. HasMessage (M.output fault) error) }
{
    Ok(anyhow::Error::msg(laid_out(heap, fault)?))
}

// What a setpoint is measured in.
fn unit(setpoint: Setpoint) -> &'static str
    ensures { result.now ≡ unit_of setpoint }
{
    match setpoint {
        Setpoint::ContractedPower | Setpoint::InstalledPower => " W",
        Setpoint::PurchaseBase
        | Setpoint::FreeSalePrice
        | Setpoint::Distribution
        | Setpoint::Transmission => " kopiykas per MWh",
        Setpoint::PayoutFloor => " kopiykas",
        Setpoint::AccountNumber
        | Setpoint::ZoneMode
        | Setpoint::SaleRule
        | Setpoint::StorageMetered
        | Setpoint::FirstMonth => "",
    }
}

// A setpoint: number, name, value and unit.
#[derive(Clone, Copy)]
pub struct SetpointRow {
    pub setpoint: Setpoint,
    pub value: u32,
}

impl fmt::Display for SetpointRow {
    ghost output = { λ r. Some (setpoint_row r.setpoint r.value) };

    #[tactic(auto, using(crate::proofs::Options::number_right, crate::proofs::ColumnTexts::name_left))]
    fn fmt<W: fmt::Write>(&self, f: &mut fmt::Formatter<W>) -> fmt::Result {
        let SetpointRow { setpoint, value } = *self;
        let number = u32::from(setpoint);
        write!(
            f,
            "{number:>4}  {setpoint:<20}{value:>11}{}",
            unit(setpoint)
        )
    }
}

// Why setpoints are refused: the number, the five places, and the words.
#[derive(Clone, Copy)]
pub struct RefusalRow(pub SetpointFault);

impl fmt::Display for RefusalRow {
    ghost output = { λ r. Some (refusal_row r.0) };

    fn fmt<W: fmt::Write>(&self, f: &mut fmt::Formatter<W>) -> fmt::Result {
        let RefusalRow(fault) = *self;
        write!(f, "refused: {} {fault}", Returned::from(fault))
    }
}

// An hour of the zone clock: its start, the coefficient, and the price per kWh and in points.
#[derive(Clone, Copy)]
pub struct ZoneRow {
    pub hour: u8,
    pub coefficient: Coefficient,
    pub points: u32,
}

impl fmt::Display for ZoneRow {
    ghost output = { λ r. Some (zone_row r.hour r.coefficient.tenths r.points) };

    #[tactic(auto, using(crate::proofs::Options::number_right))]
    fn fmt<W: fmt::Write>(&self, f: &mut fmt::Formatter<W>) -> fmt::Result {
        let ZoneRow {
            hour,
            coefficient,
            points,
        } = *self;
        let hour = HourStart(hour);
        let coefficient = CoefficientColumn(coefficient);
        let price = PerKwh::<18>(points);
        write!(f, "  {hour}{coefficient}{price}{points:>13}")
    }
}

// An hour's answers by role: for bought energy, for sold energy under the rules 1 to 3, and for excess.
#[derive(Clone, Copy)]
pub struct RolesRow {
    pub hour: u8,
    pub bought: Result<u32, SourceFault>,
    pub first: Result<u32, SourceFault>,
    pub second: Result<u32, SourceFault>,
    pub third: Result<u32, SourceFault>,
    pub excess: Result<u32, SourceFault>,
}

impl fmt::Display for RolesRow {
    ghost use Rattle.bench_sheet.specs.Roles.{roles_row};

    ghost output = { λ r. Some (roles_row r) };

    fn fmt<W: fmt::Write>(&self, f: &mut fmt::Formatter<W>) -> fmt::Result {
        let hour = HourStart(self.hour);
        let bought = AnswerColumn(self.bought);
        let first = AnswerColumn(self.first);
        let second = AnswerColumn(self.second);
        let third = AnswerColumn(self.third);
        let excess = AnswerColumn(self.excess);
        write!(f, "  {hour}{bought}{first}{second}{third}{excess}")
    }
}

// What is asked of a source with no price at an hour.
#[derive(Clone, Copy)]
pub struct AskedRow<'a> {
    pub what: &'a str,
    pub at: Stamp,
    pub answer: Result<u32, SourceFault>,
}

impl fmt::Display for AskedRow<'_> {
    ghost output = { λ r. Some (asked_row r.what.now r.at r.answer) };

    fn fmt<W: fmt::Write>(&self, f: &mut fmt::Formatter<W>) -> fmt::Result {
        // by hand, since a width counts characters and the sheet's columns count bytes
        let blanks = 32usize.saturating_sub(self.what.len());
        write!(f, "  {}", self.what)?;
        f.write_repeated(" ", blanks)?;
        write!(f, "{}  {}", DateAndHour(self.at), Answer(self.answer))
    }
}
