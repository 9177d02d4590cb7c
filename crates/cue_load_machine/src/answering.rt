//! What was replied to a load, once it is over.
ghost use Rattle.std.specs.Prelude.{◌≡◌, IfOk, IfSome, Ok, is_some, true};
ghost use Rattle.cue_load_machine.specs.Answering as answering;

use cue_desk::answered::{Answered, push};
use cue_desk::replying::{Replied, Status};
use std::alloc::{AllocError, Global};

// Puts what became of each of these after the others; whether something was replied to each.
#[tactic(auto, using(crate::proofs::AnswerLemmas::pushed_none, crate::proofs::AnswerLemmas::pushed_more))]
fn push_answers(answers: &mut Vec<Answered>, told: &[Option<Replied>]) -> Result<bool, AllocError>
    ensures all { IfOk result (λ all. all ≡ answering.all_told told.now) }
    ensures are { result ≡ Ok true → answering.PushesAnswers answers.old.items told.now answers.new.items }
{
    match told {
        [] => Ok(true),
        [first, rest @ ..] => match first {
            Some(replied) => {
                push(answers, Answered::of(*replied))?;
                push_answers(answers, rest)
            }
            None => Ok(false),
        },
    }
}

/// What became of each of so many things that were asked, as its own reply says; none unless something was replied to
/// each.
#[tactic(auto, using(crate::proofs::AnswerLemmas::are_answers))]
pub fn answers_in(
    alloc: Global,
    told: &[Option<Replied>],
    count: usize,
) -> Result<Option<Vec<Answered>>, AllocError>
    ensures each { IfOk result (λ some. IfSome some (λ answers. answering.AreAnswers told.now answers.items)) }
    ensures all { IfOk result (λ some. is_some some ≡ answering.has_all count told.now) }
{
    let mut answers = Vec::new(alloc);
    if push_answers(&mut answers, told)? && told.len() == count {
        Ok(Some(answers))
    } else {
        Ok(None)
    }
}

// The status, if that was replied.
fn status_of(told: Option<Replied>) -> Option<Status>
    ensures { result ≡ answering.status_of told }
{
    match told {
        Some(Replied::Status(status)) => Some(status),
        Some(Replied::Reply { .. }) => None,
        None => None,
    }
}

/// The status that was replied to the first of these, which asked for it.
pub fn status_in(told: &[Option<Replied>]) -> Option<Status>
    ensures { result ≡ answering.status_in told.now }
{
    match told {
        [] => None,
        [first, ..] => status_of(*first),
    }
}
