//! What is told of a plan and of a rehearsal, and how the command `rehearse` ends.
ghost use Rattle.std.specs.Prelude.{◌≡◌, IfOk, option_copied, string_bytes};
ghost use Rattle.cue_rehearsal.specs.Plans.{fault_words};
ghost use Rattle.cue_rehearsal_plan.specs.Words as words;

use cue_desk::ending::Ending;
use cue_machine::Why;
use cue_rehearsal::PlanFault;
use cue_saying::Shown;
use cue_show::DeviceNo;
use std::alloc::{AllocError, Global};
use std::fmt;

/// Where the table `[rehearse]` of a show file is. As text it begins what is said of the table.
#[derive(Clone, Copy, Drop)]
pub struct PlanPlace<'a> {
    /// The show file.
    pub path: &'a str,
    /// The line of its header, if it can be seen.
    pub line: Option<usize>,
}

impl fmt::Display for PlanPlace<'_> {
    ghost use Rattle.std.specs.Prelude.{Some};
    ghost use Rattle.cue_rehearsal_plan.specs.Words.{place_words};

    ghost output = { λ at. Some (place_words at.path.now at.line) };

    fn fmt<W: fmt::Write>(&self, f: &mut fmt::Formatter<W>) -> fmt::Result {
        let path = Shown { text: self.path };
        match self.line {
            Some(line) => write!(f, "{path}:{line}: [rehearse]"),
            None => write!(f, "{path}: [rehearse]"),
        }
    }
}

/// That a plan names a device which the file does not have.
#[derive(Clone, Copy, Drop)]
pub struct UnknownWords {
    pub device: DeviceNo,
}

impl fmt::Display for UnknownWords {
    ghost use Rattle.std.specs.Prelude.{Some};
    ghost use Rattle.cue_rehearsal_plan.specs.Words.{unknown_words};

    ghost output = { λ unknown. Some (unknown_words unknown.device) };

    fn fmt<W: fmt::Write>(&self, f: &mut fmt::Formatter<W>) -> fmt::Result {
        let number = self.device.number();
        write!(f, "the file has no device {number} to rehearse")
    }
}

/// Why a table is no plan. A key of it may have any characters.
pub fn fault_text(alloc: Global, fault: &PlanFault) -> Result<String, AllocError>
    ensures { IfOk result (λ text. string_bytes text ≡ fault_words fault.now) }
{
    format!(in alloc; "{fault}")
}

/// The line that says how many devices play.
pub fn plays_line(alloc: Global, count: usize) -> Result<String, AllocError>
    ensures { IfOk result (λ line. string_bytes line ≡ words.plays_words count) }
{
    if count == 1 {
        format!(in alloc; "{count} device plays, at its port; Ctrl-C ends it\n")
    } else {
        format!(in alloc; "{count} devices play, each at its port; Ctrl-C ends it\n")
    }
}

/// How a rehearsal ends, by why the life of its machine did. It is over only once a line could not be printed.
pub fn ending_of(why: Why) -> Ending
    ensures { result ≡ words.ending_of why }
{
    match why {
        Why::Over => Ending::Unwritten,
        Why::Ears | Why::End | Why::Memory | Why::Turns => Ending::Failed,
    }
}

/// What is said of it; nothing if the output failed, which is said of every command.
pub fn why_words(why: Why) -> Option<&'static str>
    ensures { option_copied result ≡ words.why_words why }
{
    match why {
        Why::Over => None,
        Why::Ears | Why::End => Some("a socket or the clock failed"),
        Why::Memory => Some("out of memory"),
        Why::Turns => Some("it has had its turns"),
    }
}
