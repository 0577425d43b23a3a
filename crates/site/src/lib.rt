// The site whose account is kept: its twelve setpoints, checked at once.
#![tactic(auto)]

mod fault;
mod setpoint;
mod setpoints;
mod values;

pub use fault::SetpointFault;
pub use setpoint::Setpoint;
pub use setpoints::Setpoints;
pub use values::{AccountNumber, Kopiykas, SaleRule, StorageMetering, Watts};
