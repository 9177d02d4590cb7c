//! What the replies say of an adding, and how it ends.
ghost use Rattle.std.specs.Prelude.{◌≡◌, ◌||◌, IfOk, IfSome, length};
ghost use Rattle.cue_load_machine.specs.Answering.{AreAnswers};
ghost use Rattle.cue_load_machine.specs.Order.{comes_late};
ghost use Rattle.cue_load_machine.specs.Steps.{told_of};
ghost use Rattle.cue_load_words.specs.Endings.{some_refused};

use crate::ending::some_refused;
use cue_desk::answered::Answered;
use cue_load_machine::{LoadMachine, answers_in, comes_late};
use std::alloc::{AllocError, Global};

/// What the replies say of an adding.
#[derive(Clone, Copy, Debug, PartialEq, Eq)]
pub struct Added {
    pub is_refused: bool,
    /// Whether a cue that is new may stand after one that was there, and that the file has after it.
    pub comes_late: bool,
}

impl Added {
    /// What these replies to devices and to cues say.
    pub fn by(devices: &[Answered], cues: &[Answered]) -> Added
        ensures refused { result.is_refused ≡ some_refused devices.now || some_refused cues.now }
        ensures late { result.comes_late ≡ comes_late cues.now }
    {
        Added {
            is_refused: some_refused(devices) || some_refused(cues),
            comes_late: comes_late(cues),
        }
    }
}

/// What became of each of so many entries, as its own reply says, once the machine that adds them is over; none if
/// nobody replied to one of them.
pub fn answers_of(
    alloc: Global,
    machine: &LoadMachine,
    count: usize,
) -> Result<Option<Vec<Answered>>, AllocError>
    ensures each { IfOk result (λ some. IfSome some (λ answers.
        AreAnswers (told_of machine.now.asks.items machine.now.answers.items) answers.items)) }
    ensures all { IfOk result (λ some. IfSome some (λ answers. length answers.items ≡ count)) }
{
    let told = machine.told(alloc)?;
    answers_in(alloc, &told, count)
}
