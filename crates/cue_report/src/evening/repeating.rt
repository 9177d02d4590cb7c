//! Lines that stand in a log twice: after a power cut a journal may give some lines again.
ghost use Rattle.std.specs.Prelude.{◌≡◌, [], OnOk};
ghost use Rattle.cue_report.specs.Asking.{IsLast};
ghost use Rattle.cue_report.specs.Repeating as spec;

use std::alloc::{AllocError, Global};
use std::collections::VecDeque;

/// How many of the last lines are known.
const MOST: usize = 256;

/// The last lines, each as one number.
#[derive(Drop)]
pub struct Repeats {
    last: VecDeque<u64>,
}

// A number for a line (FNV-1a): two lines have the same one by a rare chance, and then one of them is taken for a
// repeated one only if it goes back in time as well.
fn number_of(line: &[u8]) -> u64
    ensures { result ≡ spec.number_of line.now }
{
    line.iter().fold(0xcbf2_9ce4_8422_2325, |sum: u64, byte| {
        (sum ^ u64::from(*byte)).wrapping_mul(0x0000_0100_0000_01b3)
    })
}

impl Repeats {
    /// No line was seen.
    pub fn new(alloc: Global) -> Repeats
        ensures { result.last.items ≡ [] }
    {
        Repeats {
            last: VecDeque::new(alloc),
        }
    }

    /// Whether the line is one of the last ones.
    pub fn knows(&self, line: &[u8]) -> bool
        ensures { result ≡ spec.knows self.now.last.items line.now }
    {
        let number = number_of(line);
        self.last.iter().any(|x| *x == number)
    }

    /// Keeps the line as the last one.
    pub fn keep(&mut self, line: &[u8]) -> Result<(), AllocError>
        ensures { OnOk result (IsLast (spec.number_of line.now) self.new.last.items) }
    {
        if self.last.len() >= MOST {
            let _ = self.last.pop_front();
        }
        self.last.push_back(number_of(line))?;
        Ok(())
    }
}
