//! What the replies to a show file say of the order of the stack: a cue that is added is the last one.
ghost use Rattle.std.specs.Prelude.{◌≡◌};
ghost use Rattle.cue_load_machine.specs.Order.{comes_late, differs, some_was_there, was_there};

use cue_core::Code;
use cue_desk::answered::Answered;

// Whether one that was to be added is there, and differs.
fn differs(answered: Answered) -> bool
    ensures { result ≡ differs answered }
{
    match answered {
        Answered::Made => false,
        Answered::Known => false,
        Answered::Refused(code) => code == i32::from(Code::Duplicate.number()),
    }
}

// Whether one that was to be added was there already.
fn was_there(answered: Answered) -> bool
    ensures { result ≡ was_there answered }
{
    match answered {
        Answered::Made => false,
        Answered::Known => true,
        Answered::Refused(_) => differs(answered),
    }
}

// Whether one of those that were to be added was there already.
fn some_was_there(answers: &[Answered]) -> bool
    ensures { result ≡ some_was_there answers.now }
{
    match answers {
        [] => false,
        [first, rest @ ..] => was_there(*first) || some_was_there(rest),
    }
}

/// Whether one that is new stands before one that was there: so it comes after that one on the stack.
pub fn comes_late(answers: &[Answered]) -> bool
    ensures { result ≡ comes_late answers.now }
{
    match answers {
        [] => false,
        [Answered::Made, rest @ ..] => some_was_there(rest),
        [_, rest @ ..] => comes_late(rest),
    }
}
