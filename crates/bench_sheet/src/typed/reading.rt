// Numbers are read off a line of text: digits, with blanks between; a # starts a comment.
ghost use Rattle.std.specs.Prelude.{◌≡◌, ◌+◌, ◌<◌, ◌≤◌, ◌==◌, [], length, position, IfSome, None, Ok, Err, MatchOption, MatchResult};
ghost use Rattle.bench_sheet.specs.Scanning.{Steps};
ghost use Rattle.bench_sheet.specs.Reading.{ended as ended_by, entered, grown as grown_by, uncommented, Reads, ReadsBack};

use super::Typed;
use crate::fault::LineFault;

// Where the comment of a line starts, if it has one.
fn comment_start(line: &[u8]) -> Option<usize>
    ensures first { result ≡ position (λ b. b == 35) line.now }
    ensures bound { IfSome result (λ start. start < length line.now) }
{
    line.iter().position(|byte| *byte == b'#')
}

// The part of a line before its comment.
#[tactic(auto, using(crate::proofs::Comments::up_to_hash))]
fn before_comment(line: &[u8]) -> &[u8]
    ensures { result.now ≡ uncommented line.now }
{
    let end = comment_start(line).unwrap_or(line.len());
    &line[..end]
}

// A digit behind those of a number that is begun.
fn grown(begun: Option<u32>, byte: u8, column: usize) -> Result<u32, LineFault>
    requires { 48 ≤ byte }
    ensures { MatchResult result (λ n. n ≡ grown_by begun byte) (λ e. (4294967296 ≤ grown_by begun byte) × (e ≡ LineFault.TooLarge column)) }
{
    let front = begun.map_or(0, |number| u64::from(number) * 10);
    let number = front + u64::from(byte - b'0');
    u32::try_from(number).map_err(|_| LineFault::TooLarge(column))
}

// What was read of a line: the numbers, and one that is begun.
#[derive(Clone, Copy)]
struct Scan {
    typed: Typed,
    begun: Option<u32>,
}

impl Scan {
    // One byte more of the line, at its column.
    fn step(self, byte: u8, column: usize) -> Result<Scan, LineFault>
        ensures { Steps self byte column result }
    {
        match byte {
            b'0'..=b'9' => Ok(Scan {
                begun: Some(grown(self.begun, byte, column)?),
                typed: self.typed,
            }),
            b' ' | b'\t' | b'\r' => Ok(Scan {
                typed: self.typed.ended(self.begun)?,
                begun: None,
            }),
            _ => Err(LineFault::NotADigit(column)),
        }
    }
}

impl Typed {
    // A sheet with nothing on it yet.
    #[tactic(auto, using(crate::proofs::ReadBack::reads_back))]
    pub fn none() -> Typed
        ensures answer { entered result ≡ [] }
        ensures law { ReadsBack }
    {
        Typed {
            numbers: [0; 12],
            count: 0,
        }
    }

    // The numbers of one line more, behind those of the lines before it.
    pub fn read_line(self, line: &[u8]) -> Result<Typed, LineFault>
        ensures answer { Reads (entered self) line.now result }
    {
        let mut scan = Scan {
            typed: self,
            begun: None,
        };
        // columns are counted from 1
        for (index, byte) in before_comment(line).iter().enumerate() {
            scan = scan.step(*byte, index + 1)?;
        }
        scan.typed.ended(scan.begun)
    }

    // The number that is begun, if one is, behind the others.
    #[tactic(auto, using(crate::proofs::Numbers::ended_more))]
    fn ended(self, begun: Option<u32>) -> Result<Typed, LineFault>
        ensures { MatchResult result (λ t. ended_by (entered self) begun ≡ Ok (entered t)) (λ e. ended_by (entered self) begun ≡ Err e) }
    {
        let Some(number) = begun else {
            return Ok(self);
        };
        if self.count >= 12 {
            return Err(LineFault::TooMany);
        }
        let mut numbers = self.numbers;
        numbers[self.count] = number;
        Ok(Typed {
            numbers,
            count: self.count + 1,
        })
    }

    // How many numbers were typed in.
    pub fn count(&self) -> usize
        ensures answer { result ≡ length (entered self.now) }
    {
        self.count
    }

    // All twelve, where there are twelve.
    pub fn twelve(&self) -> Option<[u32; 12]>
        ensures answer { MatchOption result (length (entered self.now) < 12) (λ ns. ns ≡ entered self.now) }
    {
        if self.count < 12 {
            return None;
        }
        Some(self.numbers)
    }
}
