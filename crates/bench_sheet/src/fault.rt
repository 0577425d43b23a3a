// Why the text of a sheet is malformed: no refusal of the account. Lines and columns are counted from 1.
ghost use Rattle.std.specs.Prelude.{Some};

use std::error::Error;
use std::fmt;

// Why a line cannot be read. Its message begins with the line's number, which only a SheetFault has.
#[derive(Clone, Copy, Debug, PartialEq, Eq)]
pub enum LineFault {
    NotADigit(usize),
    TooLarge(usize),
    TooMany,
}

// Why a sheet has no twelve numbers to give.
#[derive(Clone, Copy, Debug, PartialEq, Eq)]
pub enum SheetFault {
    Unreadable { line: u64, fault: LineFault },
    // the last line, and how many numbers there were by then
    TooFew { line: u64, count: usize },
}

impl fmt::Display for SheetFault {
    ghost use Rattle.bench_sheet.specs.Rows.{fault_row};

    ghost output = { λ f. Some (fault_row f) };

    fn fmt<W: fmt::Write>(&self, f: &mut fmt::Formatter<W>) -> fmt::Result {
        match *self {
            SheetFault::Unreadable { line, fault } => match fault {
                LineFault::NotADigit(column) => {
                    write!(
                        f,
                        "line {line}, column {column}: not a digit, a blank or a #"
                    )
                }
                LineFault::TooLarge(column) => {
                    write!(f, "line {line}, column {column}: a number above 4294967295")
                }
                LineFault::TooMany => write!(f, "line {line}: more than twelve numbers"),
            },
            SheetFault::TooFew { line, count } => {
                write!(f, "after line {line}: only {count} of twelve numbers")
            }
        }
    }
}

impl Error for SheetFault {}
