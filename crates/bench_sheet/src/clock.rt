// The zone clock: what an hour costs by the purchase tariff.
ghost use Rattle.std.specs.Prelude.{◌≡◌, ◌*◌};
ghost use Rattle.tariffs.specs.Zones.{coefficient, zone_hour};

use crate::rows::ZoneRow;
use calendar::Stamp;
use tariffs::{PriceSource, ZoneTariff};

// An hour's row: the tariff is asked, and a zone tariff has a price at every hour.
pub fn hour_row(tariff: ZoneTariff, at: Stamp) -> ZoneRow
    ensures hour { result.hour ≡ at.hour }
    ensures coefficient { result.coefficient.tenths ≡ coefficient tariff.mode (zone_hour at) }
    ensures price { result.points ≡ tariff.base.kopiykas_per_mwh * coefficient tariff.mode (zone_hour at) }
{
    let mut source = tariff;
    ZoneRow {
        hour: at.hour,
        coefficient: tariff.mode.coefficient(at),
        points: source.price(at).unwrap(),
    }
}
