//! How the command `load` ends.
ghost use Rattle.std.specs.Prelude.{◌≡◌, IfErr, None, OnOk, Some};
ghost use Rattle.cue_desk.specs.declared.ending.Ending.TheVariants.{Failed};
ghost use Rattle.cue_load_words.specs.Endings as endings;
ghost use Rattle.cue_machine.specs.declared.living.Why.TheVariants.{Over};

use cue_desk::answered::Answered;
use cue_desk::ending::Ending;
use cue_load_machine::LoadEnd;
use cue_machine::Why;

/// How a load ends whose plan, or whose adding, came to this; none if all of it was replied to. A machine that is not
/// over was cut off.
pub fn ending_of_machine(end: Option<LoadEnd>) -> Option<Ending>
    ensures { result ≡ endings.ending_of_machine end }
{
    match end {
        Some(LoadEnd::Done) => None,
        Some(LoadEnd::Refused { .. }) => Some(Ending::Refused),
        Some(LoadEnd::Silent { .. } | LoadEnd::Nobody { .. }) => Some(Ending::Silent),
        Some(LoadEnd::NotKept) | None => Some(Ending::Failed),
    }
}

/// Whether one of these was refused.
pub fn some_refused(answers: &[Answered]) -> bool
    ensures { result ≡ endings.some_refused answers.now }
{
    match answers {
        [] => false,
        [Answered::Refused(_), ..] => true,
        [_, rest @ ..] => some_refused(rest),
    }
}

/// How a load ends that was carried out; none, which is status 0, exactly if nothing was refused and nothing differs.
pub fn ending_of(is_refused: bool, differs: bool) -> Option<Ending>
    ensures { result ≡ endings.ending_of is_refused differs }
{
    if is_refused || differs {
        Some(Ending::Refused)
    } else {
        None
    }
}

/// How a load goes on whose machine lived so long: it goes on only if the machine is over.
pub fn ended_by(why: Why) -> Result<(), Ending>
    ensures over { OnOk result (why ≡ Over) }
    ensures failed { IfErr result (λ ending. ending ≡ Failed) }
{
    match why {
        Why::Over => Ok(()),
        Why::Turns | Why::End | Why::Ears | Why::Memory => Err(Ending::Failed),
    }
}

/// Whether a command that ends so is done.
pub fn done_by(ending: Option<Ending>) -> Result<(), Ending>
    ensures done { OnOk result (ending ≡ None) }
    ensures ends { IfErr result (λ e. ending ≡ Some e) }
{
    match ending {
        None => Ok(()),
        Some(ending) => Err(ending),
    }
}
