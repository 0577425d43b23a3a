// The day-ahead market: a month's list of prices, checked once, and the table that answers from it.
#![tactic(auto)]

mod fault;
mod price_list;
mod table;

pub use fault::PriceListFault;
pub use price_list::{CheckedPrices, MISSING_PRICE, PriceList};
pub use table::DayAheadTable;
