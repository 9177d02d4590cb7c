//! Which reply is the answer to a letter.
ghost use Rattle.std.specs.Prelude.{◌≡◌, IfOk};
ghost use Rattle.cue_ask_machine.specs.Answers as answer;

use crate::letters::Letter;
use cue_desk::replying::{Replied, read_reply};
use cue_desk::together::condensed;
use std::alloc::{AllocError, Global};

// Whether the first of these numbers is 1, and the others are 0.
fn is_alone(number: i32, one: i32, other: i32) -> bool
    ensures { result ≡ answer.is_alone number one other }
{
    number == 1 && (one == 0 && other == 0)
}

// Whether a reply with these numbers speaks of exactly one command.
fn is_of_one(made: i32, known: i32, refused: i32) -> bool
    ensures { result ≡ answer.is_of_one made known refused }
{
    is_alone(made, known, refused)
        || (is_alone(known, made, refused) || is_alone(refused, made, known))
}

// The reply, if it speaks of exactly one command.
fn of_one(replied: Replied) -> Option<Replied>
    ensures { result ≡ answer.of_one replied }
{
    match replied {
        Replied::Reply {
            made,
            known,
            refused,
            ..
        } => {
            if is_of_one(made, known, refused) {
                Some(replied)
            } else {
                None
            }
        }
        Replied::Status(_) => None,
    }
}

// What the reply to a message for so many cues says of them.
fn of_count(count: u8, replied: Replied) -> Option<Replied>
    ensures { result ≡ answer.of_count count replied }
{
    if count > 1 {
        condensed(count, replied)
    } else {
        of_one(replied)
    }
}

// The status, if this is one.
fn of_status(replied: Replied) -> Option<Replied>
    ensures { result ≡ answer.of_status replied }
{
    match replied {
        Replied::Status(_) => Some(replied),
        Replied::Reply { .. } => None,
    }
}

// What a reply is to a message: the status if that was asked, else what became of the command.
fn of_asked(is_status: bool, count: u8, replied: Replied) -> Option<Replied>
    ensures { result ≡ answer.of_asked is_status count replied }
{
    if is_status {
        of_status(replied)
    } else {
        of_count(count, replied)
    }
}

impl Letter {
    /// What a datagram of the controller answers to this letter; none if it is something else. It fails only if memory
    /// ran out.
    pub fn answer_in(&self, alloc: Global, datagram: &[u8]) -> Result<Option<Replied>, AllocError>
        ensures { IfOk result (λ found. found ≡ answer.answer_in self.now datagram.now) }
    {
        match read_reply(alloc, &self.shown, datagram)? {
            Some(replied) => Ok(of_asked(self.is_status, self.count, replied)),
            None => Ok(None),
        }
    }
}
