// What is asked of every make of price source.
ghost use Rattle.std.specs.Prelude.{◌≡◌};
ghost use Rattle.calendar.specs.declared.stamp.Stamp.{Stamp};
ghost use Rattle.tariffs.specs.Source.{Meaning, Sound};

use crate::fault::SourceFault;
use calendar::Stamp;

pub trait PriceSource {
    // What the source means at every stamp.
    ghost means: { Self → Meaning };

    // The price at a stamp in points, or why there is none. The answer is what the source means there. That it is sound is a clause
    // and no law: the proof of a law would stand among the definitions that a reader has to believe.
    // Asking may change the source inside, as a cache changes; what it means at every stamp stays.
    fn price(&mut self, at: Stamp) -> Result<u32, SourceFault>
        ensures answer { result ≡ means self.old at }
        ensures sound { Sound result }
        ensures kept { (s : Stamp) → means self.new s ≡ means self.old s };
}
