// Why there is no price at an hour, and why a tariff is refused.
ghost use Rattle.std.specs.Prelude.{◌≡◌, Some};

use calendar::Returned;
use std::error::Error;
use std::fmt;

// A source that has no price at an hour: the cause, 1 to 255, and how many sources the fault came up through, 0 to 15.
// The cause stays a number: makes from outside have causes of their own. Its ranges are not in the type, which would ask more of
// those who make a fault.
#[derive(Clone, Copy, Debug, PartialEq, Eq)]
pub struct SourceFault {
    pub cause: u8,
    pub depth: u8,
}

impl SourceFault {
    ghost use Rattle.tariffs.specs.LowerOf.{deeper as deeper_fault};

    // The fault as a source above hands it on: the same cause, one source deeper, and never past 15.
    pub fn deeper(self) -> SourceFault
        ensures answer { result ≡ deeper_fault self }
    {
        SourceFault {
            cause: self.cause,
            depth: self.depth.saturating_add(1).min(15),
        }
    }
}

// The cause and the depth.
impl fmt::Display for SourceFault {
    ghost use Rattle.tariffs.specs.Faults.{words_source};

    ghost output = { λ f. Some (words_source f) };

    fn fmt<W: fmt::Write>(&self, f: &mut fmt::Formatter<W>) -> fmt::Result {
        let SourceFault { cause, depth } = *self;
        write!(f, "cause {cause}, depth {depth}")
    }
}

impl Error for SourceFault {}

#[derive(Clone, Copy, Debug, PartialEq, Eq)]
pub enum TariffFault {
    // the zone mode is not 1 to 3, or the base price above 10,000,000
    NoSuchTariff,
}

// The refusal's number and places.
impl From<TariffFault> for Returned {
    ghost use Rattle.tariffs.specs.Faults.{returned_tariff};

    ghost from_gives = { λ fault r. r ≡ returned_tariff fault };

    fn from(fault: TariffFault) -> Returned {
        Returned::bare(match fault {
            TariffFault::NoSuchTariff => 12,
        })
    }
}

// The words for a person. Written out, since a derived message has no bytes that a clause could name.
impl fmt::Display for TariffFault {
    ghost use Rattle.tariffs.specs.Faults.{words_tariff};

    ghost output = { λ f. Some (words_tariff f) };

    fn fmt<W: fmt::Write>(&self, f: &mut fmt::Formatter<W>) -> fmt::Result {
        f.write_str(match self {
            TariffFault::NoSuchTariff =>
                "the zone mode is not 1 to 3, or the base price is above 10000000 kopiykas per MWh",
        })
    }
}

impl Error for TariffFault {}
