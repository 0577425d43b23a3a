// A refusal as the panel shows it: a number, and five places; a place that is not named is 0. Numbers are the panel's own form.
ghost use Rattle.std.specs.Prelude.{Some};

use std::fmt;

#[derive(Clone, Copy, Debug, PartialEq, Eq)]
pub struct Returned {
    pub number: u32,
    pub places: [u32; 5],
}

impl Returned {
    ghost use Rattle.std.specs.Prelude.{◌≡◌};
    ghost use Rattle.calendar.specs.Faults.{bare};

    // A refusal that names no place.
    pub fn bare(number: u32) -> Returned
        ensures answer { result ≡ bare number }
    {
        Returned {
            number,
            places: [0; 5],
        }
    }
}

// The number, and the places in brackets.
impl fmt::Display for Returned {
    ghost use Rattle.calendar.specs.Panel.{panel};

    ghost output = { λ r. Some (panel r) };

    fn fmt<W: fmt::Write>(&self, f: &mut fmt::Formatter<W>) -> fmt::Result {
        let number = self.number;
        let [a, b, c, d, e] = self.places;
        write!(f, "{number} ({a}, {b}, {c}, {d}, {e})")
    }
}
