// A source that answers the same at every hour.
ghost use Rattle.std.specs.Prelude.{◌≡◌, true};
ghost use Rattle.outside.specs.Sound.{is_sound};

use calendar::Stamp;
use tariffs::{PriceSource, SourceFault};

#[derive(Clone, Copy, Debug, PartialEq, Eq)]
pub struct Constant {
    answer: Result<u32, SourceFault>,
    ghost sound: { is_sound answer ≡ true },
}

impl Constant {
    ghost use Rattle.std.specs.Prelude.{◌≡◌, false, MatchOption};
    ghost use Rattle.outside.specs.Sound.{is_sound};

    // A price or a fault; none where the price is above 150,000,000 points, the cause 0 or the depth above 15.
    pub fn new(answer: Result<u32, SourceFault>) -> Option<Constant>
        ensures answer { MatchOption result (is_sound answer ≡ false) (λ c. c.answer ≡ answer) }
    {
        let sound = match answer {
            Ok(points) => points <= 150_000_000,
            Err(fault) => fault.cause != 0 && fault.depth <= 15,
        };
        if !sound {
            return None;
        }
        Some(Constant { answer })
    }
}

impl PriceSource for Constant {
    ghost use Rattle.outside.specs.Constant.{constant_means};

    ghost means = { constant_means };

    fn price(&mut self, _at: Stamp) -> Result<u32, SourceFault> {
        self.answer
    }
}
