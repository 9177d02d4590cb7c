//! How a command ends that pressed a button.
ghost use Rattle.std.specs.Prelude.{◌≡◌};
ghost use Rattle.cue_press_words.specs.Endings.{ending_by};

use cue_desk::ending::Ending;
use cue_view::view::Became;

/// How a command ends whose press became this; none if it is done.
pub fn ending_by(became: Became) -> Option<Ending>
    ensures { result ≡ ending_by became }
{
    match became {
        Became::Made | Became::Known | Became::Over | Became::Carried => None,
        Became::Refused(_) | Became::Partly(_) => Some(Ending::Refused),
        Became::Nobody | Became::Open | Became::Unshown => Some(Ending::Silent),
        Became::Lost | Became::Unknown => Some(Ending::Silent),
    }
}
