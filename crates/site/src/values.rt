// What the setpoints hold.
ghost use Rattle.std.specs.Prelude.{◌≡◌};
ghost use Rattle.site.specs.Reads.{ReadsRule, ReadsStorage};
ghost use Rattle.site.specs.Values.{rule_number, storage_number};

use crate::fault::SetpointFault;
use crate::setpoint::Setpoint;

// The account's number with the supplier.
#[derive(Clone, Copy, Debug, PartialEq, Eq)]
pub struct AccountNumber(pub u32);

#[derive(Clone, Copy, Debug, PartialEq, Eq)]
pub struct Watts(pub u32);

// A sum of money that is not below zero.
#[derive(Clone, Copy, Debug, PartialEq, Eq)]
pub struct Kopiykas(pub u32);

// What sold energy is paid at.
#[derive(Clone, Copy, Debug, PartialEq, Eq)]
pub enum SaleRule {
    // the day-ahead price
    DayAhead,
    // the lower of the day-ahead price and the purchase tariff
    CappedDayAhead,
    // the free sale price
    FreePrice,
}

// The rule that setpoint 7 writes.
impl TryFrom<u32> for SaleRule {
    type Error = SetpointFault;

    ghost try_from_gives = { ReadsRule };

    fn try_from(number: u32) -> Result<SaleRule, SetpointFault> {
        match number {
            1 => Ok(SaleRule::DayAhead),
            2 => Ok(SaleRule::CappedDayAhead),
            3 => Ok(SaleRule::FreePrice),
            _ => Err(SetpointFault::NotAllowed(Setpoint::SaleRule)),
        }
    }
}

// 1, 2 or 3. By arms and not by discriminants, so that each number stands as in the definition.
impl From<SaleRule> for u32 {
    ghost from_gives = { λ x n. n ≡ rule_number x };

    fn from(rule: SaleRule) -> u32 {
        match rule {
            SaleRule::DayAhead => 1,
            SaleRule::CappedDayAhead => 2,
            SaleRule::FreePrice => 3,
        }
    }
}

// Whether the energy that storage gave back is metered by itself.
#[derive(Clone, Copy, Debug, PartialEq, Eq)]
pub enum StorageMetering {
    Unmetered,
    Metered,
}

// The flag that setpoint 10 writes.
impl TryFrom<u32> for StorageMetering {
    type Error = SetpointFault;

    ghost try_from_gives = { ReadsStorage };

    fn try_from(number: u32) -> Result<StorageMetering, SetpointFault> {
        match number {
            0 => Ok(StorageMetering::Unmetered),
            1 => Ok(StorageMetering::Metered),
            _ => Err(SetpointFault::NotAllowed(Setpoint::StorageMetered)),
        }
    }
}

// 0 or 1, by arms for the same reason.
impl From<StorageMetering> for u32 {
    ghost from_gives = { λ x n. n ≡ storage_number x };

    fn from(storage: StorageMetering) -> u32 {
        match storage {
            StorageMetering::Unmetered => 0,
            StorageMetering::Metered => 1,
        }
    }
}
