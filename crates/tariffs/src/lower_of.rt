// The lower of two prices: a source that is made of two others, of any makes.
ghost use Rattle.tariffs.specs.LowerOf.{lower};

use crate::fault::SourceFault;
use crate::source::PriceSource;
use calendar::Stamp;

#[derive(Drop)]
pub struct LowerOf<A, B> {
    pub first: A,
    pub second: B,
}

impl<A: PriceSource, B: PriceSource> PriceSource for LowerOf<A, B> {
    ghost means = { λ l. lower (A.PriceSource.means l.first) (B.PriceSource.means l.second) };

    // The second is asked only where the first has a price.
    fn price(&mut self, at: Stamp) -> Result<u32, SourceFault> {
        let first = self.first.price(at).map_err(SourceFault::deeper)?;
        let second = self.second.price(at).map_err(SourceFault::deeper)?;
        Ok(first.min(second))
    }
}
