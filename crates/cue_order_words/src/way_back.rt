//! The way back from a move of the place.
ghost use Rattle.std.specs.Prelude.{◌≡◌};
ghost use Rattle.std.specs.Fmt.{WritesOnOk};
ghost use Rattle.cue_order_words.specs.WayBack as back;

use crate::told::Told;
use cue_desk::orders::DeskCommand;
use cue_desk::ports::PORT;
use cue_operator::CueVerb;
use cue_show::CueNo;
use cue_show_file::cue_text;
use std::fmt;

/// Whether a command moves the place: then the place before it is asked first.
pub fn is_move(order: &DeskCommand) -> bool
    ensures { result ≡ back.is_move order.now }
{
    match order {
        DeskCommand::OfCue(verb, _) => match verb {
            CueVerb::Goto => true,
            CueVerb::Standby | CueVerb::Go | CueVerb::Cancel | CueVerb::Remove => false,
        },
        DeskCommand::Status | DeskCommand::Release(_) | DeskCommand::RemoveDevice(_) => false,
    }
}

/// How to go back from a move that was made.
#[derive(Clone, Copy, Debug, PartialEq, Eq)]
pub enum WayBack {
    /// By a move to this cue.
    To(CueNo),
    /// By none: no cue was the place before.
    Nowhere,
}

impl WayBack {
    /// How to go back to this place.
    pub fn to(place: &Option<CueNo>) -> WayBack
        ensures { result ≡ back.back_to place.now }
    {
        match place {
            Some(cue) => WayBack::To(*cue),
            None => WayBack::Nowhere,
        }
    }

    /// How to go back from a command of which this is told, if it has moved the place; `before` is how to go back to
    /// the place before it, if the command moves and that place is known.
    pub fn of(told: &Told, before: Option<WayBack>) -> Option<WayBack>
        ensures { result ≡ back.way_back told.now before }
    {
        match told {
            Told::Made => before,
            _ => None,
        }
    }
}

/// How to go back, in words, from a move at the controller of this port.
#[derive(Clone, Copy, Drop)]
pub struct WordsBack<'a> {
    pub way: &'a WayBack,
    pub port: u16,
}

// The words for a move back to this cue.
fn write_to<W: fmt::Write>(f: &mut fmt::Formatter<W>, cue: &CueNo, port: u16) -> fmt::Result
    ensures { WritesOnOk W.write_str_gives f.old result (back.words_to cue.now port) f.new }
{
    let cue = cue_text(cue);
    if port == PORT {
        write!(f, "moved from cue {cue}; back: cuedesk goto {cue}")
    } else {
        write!(
            f,
            "moved from cue {cue}; back: cuedesk goto {cue} --port {port}"
        )
    }
}

impl fmt::Display for WordsBack<'_> {
    ghost use Rattle.std.specs.Prelude.{Some};
    ghost use Rattle.cue_order_words.specs.WayBack.{words_back};

    ghost output = { λ words. Some (words_back words.way.now words.port) };

    fn fmt<W: fmt::Write>(&self, f: &mut fmt::Formatter<W>) -> fmt::Result {
        match self.way {
            WayBack::To(cue) => write_to(f, cue, self.port),
            WayBack::Nowhere => {
                f.write_str("before, no cue was the place: no command goes back to that")
            }
        }
    }
}
