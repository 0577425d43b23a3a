// The questions that a source was asked, in their order.
ghost use Rattle.std.specs.Prelude.{◌≡◌, [], Ok, MatchResult};
ghost use Rattle.outside.specs.Questions.{Noted};

use calendar::Stamp;
use std::alloc::{AllocError, Global};

#[derive(Drop)]
pub struct Questions {
    stamps: Vec<Stamp>,
    // an error where there was no memory for one: none is noted since. Beside the stamps, which stay where one is lost
    noted: Result<(), AllocError>,
}

impl Questions {
    // None yet.
    pub fn none(heap: Global) -> Questions
        ensures answer { (result.stamps.items ≡ []) × (result.noted ≡ Ok tt) }
    {
        Questions {
            stamps: Vec::new(heap),
            noted: Ok(()),
        }
    }

    // One question more.
    pub fn note(&mut self, at: Stamp)
        ensures answer { Noted self.old at self.new }
    {
        if self.noted.is_ok() {
            self.noted = self.stamps.push(at).map_err(AllocError::from);
        }
    }

    // All of them, in the order of asking; the error where one was lost.
    pub fn all(&self) -> Result<&[Stamp], AllocError>
        ensures answer { MatchResult result (λ all. (self.now.noted ≡ Ok tt) × (all.now ≡ self.now.stamps.items)) (λ e. self.now.noted ≡ Err e) }
    {
        self.noted?;
        Ok(self.stamps.as_slice())
    }
}
