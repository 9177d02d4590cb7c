//! Which line is said of what a message comes to, and of what comes of a press.
ghost use Rattle.std.specs.Prelude.{◌≡◌};
ghost use Rattle.cue_panel.specs.Telling as telling;

use crate::line::Line;
use crate::outcome::Outcome;
use crate::pending::What;
use crate::taking::{Source, Strike, Taken};
use cue_presses::{Intent, Struck};

// What is said of what was struck; what was dropped is counted, and told once for all.
fn struck_line(source: Source, intent: Intent, struck: &Struck) -> Option<Line>
    ensures { result ≡ telling.struck_line source intent struck.now }
{
    match struck {
        Struck::Refused(why) => Some(Line::NotPressed(source, intent, *why)),
        Struck::Tap => Some(Line::Tap(source)),
        Struck::Presses(_) | Struck::Waited | Struck::Flooded => None,
    }
}

/// What is said of a message; of what is no key only if it is the first of its kind.
pub(crate) fn line_of(taken: &Taken, is_first: bool) -> Option<Line>
    ensures { result ≡ telling.line_of taken.now is_first }
{
    match taken {
        Taken::Struck(source, intent, struck) => struck_line(*source, *intent, struck),
        Taken::Spoken(spoken) => Some(Line::Spoken(*spoken)),
        Taken::Held(passed) => Some(Line::Held(*passed)),
        Taken::Other(passed) => if is_first {
            Some(Line::NotTaken(*passed))
        } else {
            None
        },
        Taken::Flooded | Taken::Nothing => None,
    }
}

/// What pressed what.
pub(crate) fn what_of(strike: &Strike) -> What
    ensures { result ≡ telling.what_of strike.now }
{
    What {
        source: strike.source,
        button: strike.press.button,
    }
}

/// What is said at once of a press: nothing if it is sent.
pub(crate) fn line_of_press(strike: &Strike, outcome: Outcome, is_tapped: bool) -> Option<Line>
    ensures { result ≡ telling.line_of_press strike.now outcome is_tapped }
{
    match outcome {
        Outcome::Sent(_) => None,
        Outcome::Unsent(unsent) => {
            if is_tapped {
                Some(Line::Tapped(what_of(strike)))
            } else {
                Some(Line::NotSent(what_of(strike), unsent))
            }
        }
        Outcome::Unheard => Some(Line::Unheard(strike.press.button)),
    }
}
