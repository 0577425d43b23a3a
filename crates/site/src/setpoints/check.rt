// Twelve numbers become setpoints, or are refused for the first reason that applies.
ghost use Rattle.calendar.specs.Calendar.{number as month_number, within};
ghost use Rattle.site.specs.Reads.{Converts, Reads};
ghost use Rattle.site.specs.Setpoints.{Checked, is_month_number};
ghost use Rattle.site.specs.declared.setpoint.Setpoint.TheVariants.{FirstMonth};

use super::Setpoints;
use crate::fault::SetpointFault;
use crate::setpoint::Setpoint;
use crate::values::{AccountNumber, Kopiykas, Watts};
use calendar::Month;

// A value of a range, which is the setpoint's and not its unit's: a watt has no bound of its own.
fn ranged(setpoint: Setpoint, value: u32, least: u32, most: u32) -> Result<u32, SetpointFault>
    ensures { Reads setpoint value (within least most value) (λ n. n) result }
{
    if !(least..=most).contains(&value) {
        return Err(SetpointFault::NotAllowed(setpoint));
    }
    Ok(value)
}

// A value that has a type of its own.
fn read<T: TryFrom<u32>>(setpoint: Setpoint, value: u32) -> Result<T, SetpointFault>
where
    T::Error: Drop,
    ensures { Converts T.try_from_gives setpoint value result }
{
    T::try_from(value).map_err(|_| SetpointFault::NotAllowed(setpoint))
}

// Year × 100 + month. A call of its own, since its proof names a lemma: so the check needs none, and an edit there fails at a fact.
fn first_month(value: u32) -> Result<Month, SetpointFault>
    ensures { Reads FirstMonth value (is_month_number value) (λ m. month_number m.year m.month) result }
{
    read(Setpoint::FirstMonth, value)
}

impl Setpoints {
    // The twelve numbers in their order, setpoint 1 first: accepted where each is allowed and the installed power is
    // not above the contracted. Else refusal 1 with the lowest setpoint that is not allowed, then 2. No try_from: the name says
    // that the numbers are checked.
    pub fn check(numbers: [u32; 12]) -> Result<Setpoints, SetpointFault>
        ensures answer { Checked numbers result }
    {
        // by index, since a pattern of twelve names would fill fourteen lines
        let account = AccountNumber(ranged(Setpoint::AccountNumber, numbers[0], 1, 999_999_999)?);
        let contracted_power = Watts(ranged(Setpoint::ContractedPower, numbers[1], 1, 1_000_000)?);
        let installed_power = Watts(ranged(Setpoint::InstalledPower, numbers[2], 1, 30_000)?);
        let zone_mode = read(Setpoint::ZoneMode, numbers[3])?;
        let purchase_base = read(Setpoint::PurchaseBase, numbers[4])?;
        let free_sale_price = read(Setpoint::FreeSalePrice, numbers[5])?;
        let sale_rule = read(Setpoint::SaleRule, numbers[6])?;
        let distribution = read(Setpoint::Distribution, numbers[7])?;
        let transmission = read(Setpoint::Transmission, numbers[8])?;
        let storage = read(Setpoint::StorageMetered, numbers[9])?;
        let first_month = first_month(numbers[10])?;
        let payout_floor = Kopiykas(ranged(Setpoint::PayoutFloor, numbers[11], 1, 1_000_000_000)?);
        if installed_power.0 > contracted_power.0 {
            return Err(SetpointFault::InstalledAboveContracted);
        }
        Ok(Setpoints {
            account,
            contracted_power,
            installed_power,
            zone_mode,
            purchase_base,
            free_sale_price,
            sale_rule,
            distribution,
            transmission,
            storage,
            first_month,
            payout_floor,
        })
    }
}
