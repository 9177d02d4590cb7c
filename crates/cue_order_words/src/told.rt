//! What is told of a command, by how its question ended.
ghost use Rattle.std.specs.Prelude.{◌≡◌};
ghost use Rattle.cue_order_words.specs.Told as told;

use cue_ask_machine::AskEnd;
use cue_desk::answered::are_counts;
use cue_desk::ending::Ending;
use cue_desk::replying::{Replied, Status};

/// What is told of a command.
#[derive(Clone, Copy, Debug, PartialEq, Eq)]
pub enum Told {
    /// The controller has carried it out.
    Made,
    /// It was so already.
    Known,
    /// The controller refused it, by this code.
    Refused(i32),
    /// Only some of several cues stand by; the first of the others was refused by this code.
    Partly(i32),
    /// How the show stands.
    Status(Status),
    /// Nobody listens at the controller's port: nothing was carried out.
    Nobody,
    /// Nobody replied in time: what became of it is not known.
    Silent,
    /// What was replied does not speak of one command. No question ends so.
    Unclear,
}

// What the numbers of a reply tell of the one command that was asked.
fn told_by(made: i32, known: i32, refused: i32, code: i32) -> Told
    ensures { result ≡ told.told_by made known refused code }
{
    if are_counts(made, known, refused, 1, 0, 0) {
        Told::Made
    } else if are_counts(made, known, refused, 0, 1, 0) {
        Told::Known
    } else if are_counts(made, known, refused, 0, 0, 1) {
        Told::Refused(code)
    } else if are_counts(made, known, refused, 1, 0, 1) {
        Told::Partly(code)
    } else {
        Told::Unclear
    }
}

impl Told {
    /// What is told of a command whose question ended so.
    pub fn of(end: &AskEnd) -> Told
        ensures { result ≡ told.told_of end.now }
    {
        match end {
            AskEnd::Replied(
                Replied::Reply {
                    made,
                    known,
                    refused,
                    code,
                },
            ) => told_by(*made, *known, *refused, *code),
            AskEnd::Replied(Replied::Status(status)) => Told::Status(*status),
            AskEnd::Nobody => Told::Nobody,
            AskEnd::Silent | AskEnd::Lost => Told::Silent,
        }
    }

    /// How the command ends; none if it is done, and what is told of it is its output.
    pub fn ending(&self) -> Option<Ending>
        ensures { result ≡ told.ending_of self.now }
    {
        match self {
            Told::Made | Told::Known | Told::Status(_) => None,
            Told::Refused(_) | Told::Partly(_) => Some(Ending::Refused),
            Told::Nobody | Told::Silent | Told::Unclear => Some(Ending::Silent),
        }
    }
}
