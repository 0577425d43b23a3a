// A source that writes down what it is asked.
ghost use Rattle.std.specs.Prelude.{◌≡◌};
ghost use Rattle.calendar.specs.declared.stamp.Stamp.{Stamp};
ghost use Rattle.tariffs.specs.Source.{Sound};
ghost use Rattle.outside.specs.Questions.{Noted};

use crate::questions::Questions;
use calendar::Stamp;
use tariffs::{PriceSource, SourceFault};

#[derive(Drop)]
pub struct Recorder<P> {
    pub source: P,
    pub questions: Questions,
}

impl<P: PriceSource> PriceSource for Recorder<P> {
    ghost means = { λ r. P.PriceSource.means r.source };

    // The trait's clauses, and one more: a method with a clause of its own repeats the others.
    fn price(&mut self, at: Stamp) -> Result<u32, SourceFault>
        ensures answer { result ≡ P.PriceSource.means self.old.source at }
        ensures sound { Sound result }
        ensures kept { (s : Stamp) → P.PriceSource.means self.new.source s ≡ P.PriceSource.means self.old.source s }
        ensures noted { Noted self.old.questions at self.new.questions }
    {
        self.questions.note(at);
        self.source.price(at)
    }
}
