//! What became of one thing that was asked, as the controller's reply says.
ghost use Rattle.std.specs.Prelude.{◌≡◌, ◌++◌, ◌∷◌, [], None, IfSome, OnOk, pos};
ghost use Rattle.std.specs.Ordering.{int_eq};
ghost use Rattle.cue_desk.specs.Answered.{IsOfOne, Tells, counts, ending_of, refusal_of_removal};

use crate::ending::Ending;
use crate::replying::Replied;
use cue_core::Code;
use std::alloc::AllocError;

/// What became of it.
#[derive(Clone, Copy, Debug, PartialEq, Eq)]
pub enum Answered {
    Made,
    /// It was so already.
    Known,
    /// The controller refused it, by this code.
    Refused(i32),
}

impl Answered {
    /// What a reply says of the one command that was asked.
    pub fn of(replied: Replied) -> Answered
        ensures { Tells replied result }
    {
        match replied {
            Replied::Reply {
                made,
                refused,
                code,
                ..
            } => {
                if refused > 0 {
                    Answered::Refused(code)
                } else if made > 0 {
                    Answered::Made
                } else {
                    Answered::Known
                }
            }
            Replied::Status(_) => Answered::Known,
        }
    }
}

// Whether a number of a reply is this one.
fn is_count(said: i32, count: u8) -> bool
    ensures { result ≡ int_eq said (pos count) }
{
    said == i32::from(count)
}

/// Whether the three numbers of a reply are these: so many were made, known and refused.
pub fn are_counts(made: i32, known: i32, refused: i32, m: u8, k: u8, r: u8) -> bool
    ensures { result ≡ counts made known refused m k r }
{
    is_count(made, m) && (is_count(known, k) && is_count(refused, r))
}

/// What a reply says of the one command that was asked; none if it does not speak of exactly one.
pub fn answer_in(replied: Replied) -> Option<Answered>
    ensures one { IfSome result (λ _. IsOfOne replied) }
    ensures tells { IfSome result (λ answered. Tells replied answered) }
    ensures none { result ≡ None → IsOfOne replied → ⊥ }
{
    match replied {
        Replied::Reply {
            made: 1,
            known: 0,
            refused: 0,
            ..
        }
        | Replied::Reply {
            made: 0,
            known: 1,
            refused: 0,
            ..
        }
        | Replied::Reply {
            made: 0,
            known: 0,
            refused: 1,
            ..
        } => Some(Answered::of(replied)),
        _ => None,
    }
}

/// How a command ends of which this became; none if it is done.
pub fn ending_of(answered: Answered) -> Option<Ending>
    ensures { result ≡ ending_of answered }
{
    match answered {
        Answered::Made => None,
        Answered::Known => None,
        Answered::Refused(_) => Some(Ending::Refused),
    }
}

/// The code by which a removal was refused; none if what was to be removed is not there.
pub fn refusal_of_removal(answered: Answered) -> Option<i32>
    ensures { result ≡ refusal_of_removal answered }
{
    match answered {
        Answered::Made => None,
        Answered::Known => None,
        Answered::Refused(code) => {
            if code == i32::from(Code::NoMethod.number()) {
                None
            } else {
                Some(code)
            }
        }
    }
}

/// Puts what became of one more after the others.
pub fn push(answers: &mut Vec<Answered>, answered: Answered) -> Result<(), AllocError>
    ensures { OnOk result (answers.new.items ≡ answers.old.items ++ answered ∷ []) }
{
    answers.push(answered)?;
    Ok(())
}
