//! What is said while cues are live: for which to wait.
ghost use Rattle.std.specs.Prelude.{◌≡◌};
ghost use Rattle.std.specs.Fmt.{WritesOnOk};
ghost use Rattle.cue_load_words.specs.LiveCues as words;

use cue_show::CueNo;
use cue_show_file::cue_text;
use std::fmt;

/// That nothing is replaced, since these cues are live. None are known if the store changes while it is read.
#[derive(Clone, Copy, Drop)]
pub struct LiveCues<'a> {
    pub cues: &'a [CueNo],
}

// The numbers of cues that stand after the first one of a list.
#[derive(Clone, Copy, Drop)]
struct Others<'a> {
    cues: &'a [CueNo],
}

// Writes the numbers of cues after the first one of a list.
fn write_others<W: fmt::Write>(f: &mut fmt::Formatter<W>, cues: &[CueNo]) -> fmt::Result
    ensures { WritesOnOk W.write_str_gives f.old result (words.others_words cues.now) f.new }
{
    match cues {
        [] => f.write_str(""),
        [last] => {
            let number = cue_text(last);
            write!(f, " and {number}")
        }
        [first, rest @ ..] => {
            let number = cue_text(first);
            write!(f, ", {number}")?;
            write_others(f, rest)
        }
    }
}

impl fmt::Display for Others<'_> {
    ghost use Rattle.std.specs.Prelude.{Some};
    ghost use Rattle.cue_load_words.specs.LiveCues.{others_words};

    ghost output = { λ others. Some (others_words others.cues.now) };

    fn fmt<W: fmt::Write>(&self, f: &mut fmt::Formatter<W>) -> fmt::Result {
        write_others(f, self.cues)
    }
}

// Writes that one cue is live.
fn write_one<W: fmt::Write>(f: &mut fmt::Formatter<W>, cue: &CueNo) -> fmt::Result
    ensures { WritesOnOk W.write_str_gives f.old result (words.one_words cue.now) f.new }
{
    let number = cue_text(cue);
    write!(
        f,
        "cue {number} is live: nothing is replaced. \
         Wait until it has ended, or load without --replace and --exact"
    )
}

// Writes that several cues are live.
fn write_several<W: fmt::Write>(
    f: &mut fmt::Formatter<W>,
    cue: &CueNo,
    others: &[CueNo],
) -> fmt::Result
    ensures { WritesOnOk W.write_str_gives f.old result (words.several_words cue.now others.now) f.new }
{
    let (number, others) = (cue_text(cue), Others { cues: others });
    write!(
        f,
        "cues {number}{others} are live: nothing is replaced. \
         Wait until they have ended, or load without --replace and --exact"
    )
}

impl fmt::Display for LiveCues<'_> {
    ghost use Rattle.std.specs.Prelude.{Some};
    ghost use Rattle.cue_load_words.specs.LiveCues.{live_words};

    ghost output = { λ live. Some (live_words live.cues.now) };

    fn fmt<W: fmt::Write>(&self, f: &mut fmt::Formatter<W>) -> fmt::Result {
        match self.cues {
            [] => f.write_str(
                "a cue is live: nothing is replaced. Wait until it has ended, or load without --replace and --exact",
            ),
            [cue] => write_one(f, cue),
            [cue, others @ ..] => write_several(f, cue, others),
        }
    }
}
