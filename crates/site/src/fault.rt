// Why twelve setpoints are refused.
ghost use Rattle.std.specs.Prelude.{◌≡◌, Some};

use crate::setpoint::Setpoint;
use calendar::Returned;
use std::error::Error;
use std::fmt;

#[derive(Clone, Copy, Debug, PartialEq, Eq)]
pub enum SetpointFault {
    // the lowest setpoint whose value is not allowed
    NotAllowed(Setpoint),
    InstalledAboveContracted,
}

// The refusal's number and places.
impl From<SetpointFault> for Returned {
    ghost use Rattle.site.specs.Faults.{returned_setpoint};

    ghost from_gives = { λ fault r. r ≡ returned_setpoint fault };

    fn from(fault: SetpointFault) -> Returned {
        match fault {
            SetpointFault::NotAllowed(setpoint) => Returned {
                number: 1,
                places: [u32::from(setpoint), 0, 0, 0, 0],
            },
            SetpointFault::InstalledAboveContracted => Returned::bare(2),
        }
    }
}

// The words for a person. Written out, since a derived message has no bytes that a clause could name.
impl fmt::Display for SetpointFault {
    ghost use Rattle.site.specs.Faults.{words_setpoint};

    ghost output = { λ f. Some (words_setpoint f) };

    fn fmt<W: fmt::Write>(&self, f: &mut fmt::Formatter<W>) -> fmt::Result {
        match self {
            SetpointFault::NotAllowed(setpoint) => {
                let number = u32::from(*setpoint);
                write!(f, "setpoint {number} ({setpoint}) is not allowed")
            }
            SetpointFault::InstalledAboveContracted => f.write_str(
                "installed power is above contracted power",
            ),
        }
    }
}

impl Error for SetpointFault {}
