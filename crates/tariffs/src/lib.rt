// What energy costs at an hour: the zones of the day, the zone tariff, the trait of price sources, and the lower of two.
#![tactic(auto)]

mod coefficient;
mod fault;
mod lower_of;
mod rate;
mod source;
mod zone_tariff;
mod zones;

pub use coefficient::Coefficient;
pub use fault::{SourceFault, TariffFault};
pub use lower_of::LowerOf;
pub use rate::Rate;
pub use source::PriceSource;
pub use zone_tariff::ZoneTariff;
pub use zones::ZoneMode;
