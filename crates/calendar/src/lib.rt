// The calendar of the account: months from 2020 to 2099, their days, and their hours in order.
// And the form in which every layer hands a refusal to the panel.
#![tactic(auto)]

mod date;
mod fault;
mod hours;
mod month;
mod returned;
mod stamp;

pub use date::Date;
pub use fault::CalendarFault;
pub use month::Month;
pub use returned::Returned;
pub use stamp::Stamp;
