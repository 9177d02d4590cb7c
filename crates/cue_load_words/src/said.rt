//! The lines that a load says on standard error.
ghost use Rattle.std.specs.Prelude.{◌≡◌};
ghost use Rattle.std.specs.Fmt.{WritesOnOk};
ghost use Rattle.cue_load_words.specs.Words as words;

use crate::copies::MAX_KEPT;
use crate::subject::Named;
use cue_loading::{Difference, Manner};
use cue_saying::Shown;
use cue_show::{CueNo, DeviceNo};
use cue_show_file::{Subject, cue_text};
use cue_words::code_words;
use std::fmt;

/// What the lines of a load name.
#[derive(Clone, Copy, Drop)]
pub struct About<'a> {
    /// The show file.
    pub path: &'a str,
    /// The folder of the store; empty if it is not known.
    pub dir: &'a str,
    /// The port of the controller.
    pub port: u16,
}

/// What is loaded, and how.
#[derive(Clone, Copy)]
pub struct Loaded<'a> {
    /// The show file.
    pub path: &'a str,
    /// The folder of the store, if it is known.
    pub dir: Option<&'a str>,
    pub manner: Manner,
    /// Whether it says on the way how far it has come.
    pub tells: bool,
}

impl<'a> Loaded<'a> {
    /// What its lines name, if the controller is at this port.
    pub fn about(&self, port: u16) -> About<'a>
        ensures path { result.path ≡ self.now.path }
        ensures port { result.port ≡ port }
    {
        About {
            path: self.path,
            dir: self.dir.unwrap_or(""),
            port,
        }
    }
}

/// A line that a load says.
#[derive(Clone, Copy, Debug, PartialEq, Eq)]
pub enum Said {
    /// The controller did not say how the show stands.
    NoStatus,
    /// This was refused, by this code.
    Refused(Subject, i32),
    /// Nobody replied to what was asked of this.
    Unanswered(Subject),
    /// Something was taken off the stack and is not back.
    NotWhole,
    /// Where the place was.
    PlaceWas(CueNo),
    /// What is new may stand elsewhere than in the file.
    OtherOrder,
    /// The stack has no room for the file beside what it does not have.
    NoRoom,
    /// The controller serves another store than that of the folder.
    OtherStore,
    /// Nothing is replaced, since what the store had is not kept.
    NotReplaced,
    /// The store is not what the file says.
    Differs(Difference),
    /// How to have what the file says.
    ToReplace,
    /// How to take out what is not in the file.
    ToRemove,
    /// What the store had is not kept: each name for it is taken.
    NoName,
    /// What the store had is not kept; why follows.
    NotKept,
    /// There is no socket; why follows.
    NoSocket,
}

/// A line, in words.
#[derive(Clone, Copy, Drop)]
pub struct SaidWords<'a> {
    pub said: &'a Said,
    pub about: &'a About<'a>,
}

// Writes that this was refused.
fn write_refused<W: fmt::Write>(
    f: &mut fmt::Formatter<W>,
    subject: &Subject,
    code: i32,
) -> fmt::Result
    ensures { WritesOnOk W.write_str_gives f.old result (words.refused_words subject.now code) f.new }
{
    let (named, why) = (Named { subject }, code_words(code));
    write!(f, "{named}: refused, code {code}: {why}")
}

// Writes that nobody replied to what was asked of this.
fn write_unanswered<W: fmt::Write>(
    f: &mut fmt::Formatter<W>,
    subject: &Subject,
    port: u16,
) -> fmt::Result
    ensures { WritesOnOk W.write_str_gives f.old result (words.unanswered_words subject.now port) f.new }
{
    let named = Named { subject };
    write!(
        f,
        "{named}: not acknowledged by the controller at 127.0.0.1:{port}: \
         it was carried out whole, or not at all; look whether serve runs there, and load again"
    )
}

// Writes that the controller did not say how the show stands.
fn write_no_status<W: fmt::Write>(f: &mut fmt::Formatter<W>, port: u16) -> fmt::Result
    ensures { WritesOnOk W.write_str_gives f.old result (words.no_status_words port) f.new }
{
    write!(
        f,
        "the status: no reply from the controller at 127.0.0.1:{port}: \
         look whether serve runs there, and load again"
    )
}

// Writes where the place was.
fn write_place<W: fmt::Write>(f: &mut fmt::Formatter<W>, cue: &CueNo) -> fmt::Result
    ensures { WritesOnOk W.write_str_gives f.old result (words.place_words cue.now) f.new }
{
    let number = cue_text(cue);
    write!(f, "the place was cue {number}")
}

// Writes that the controller serves another store.
fn write_other_store<W: fmt::Write>(f: &mut fmt::Formatter<W>, dir: &str, port: u16) -> fmt::Result
    ensures { WritesOnOk W.write_str_gives f.old result (words.other_store_words dir.now port) f.new }
{
    let dir = Shown { text: dir };
    write!(
        f,
        "{dir} is not the store that is served at port {port}: give the folder of that one, or its port"
    )
}

// Writes the name of a file with what stands before and after it.
fn write_around<W: fmt::Write>(
    f: &mut fmt::Formatter<W>,
    before: &str,
    name: &str,
    after: &str,
) -> fmt::Result
    ensures { WritesOnOk W.write_str_gives f.old result (words.around before.now name.now after.now) f.new }
{
    let name = Shown { text: name };
    write!(f, "{before}{name}{after}")
}

// Writes in which of store and file an entry is, with what stands before and after the name of the file.
fn write_where<W: fmt::Write>(
    f: &mut fmt::Formatter<W>,
    subject: &Subject,
    before: &str,
    path: &str,
    after: &str,
) -> fmt::Result
    ensures { WritesOnOk W.write_str_gives f.old result
        (words.where_words subject.now before.now path.now after.now) f.new }
{
    let (named, path) = (Named { subject }, Shown { text: path });
    write!(f, "{named}{before}{path}{after}")
}

// Writes that the store has this, and the file does not.
fn write_left<W: fmt::Write>(
    f: &mut fmt::Formatter<W>,
    subject: &Subject,
    path: &str,
) -> fmt::Result
    ensures { WritesOnOk W.write_str_gives f.old result (words.left_words subject.now path.now) f.new }
{
    write_where(f, subject, " is in the store and not in ", path, "")
}

// Writes that the file has this, and the store does not.
fn write_missing<W: fmt::Write>(
    f: &mut fmt::Formatter<W>,
    subject: &Subject,
    path: &str,
) -> fmt::Result
    ensures { WritesOnOk W.write_str_gives f.old result (words.missing_words subject.now path.now) f.new }
{
    write_where(f, subject, " is in ", path, " and not in the store")
}

// Writes that a device has another port than the file says.
fn write_port<W: fmt::Write>(
    f: &mut fmt::Formatter<W>,
    device: DeviceNo,
    port: u16,
    path: &str,
) -> fmt::Result
    ensures { WritesOnOk W.write_str_gives f.old result (words.port_words device port path.now) f.new }
{
    let (number, path) = (device.number(), Shown { text: path });
    write!(
        f,
        "device {number} has port {port} in the store, and another one in {path}"
    )
}

// Writes that a cue has other parts than the file says.
fn write_parts<W: fmt::Write>(f: &mut fmt::Formatter<W>, cue: &CueNo, path: &str) -> fmt::Result
    ensures { WritesOnOk W.write_str_gives f.old result (words.parts_words cue.now path.now) f.new }
{
    let (number, path) = (cue_text(cue), Shown { text: path });
    write!(
        f,
        "cue {number} has other parts in the store than in {path}"
    )
}

// Writes where the stack has another order than the file.
fn write_order<W: fmt::Write>(
    f: &mut fmt::Formatter<W>,
    cue: &CueNo,
    other: &CueNo,
    path: &str,
) -> fmt::Result
    ensures { WritesOnOk W.write_str_gives f.old result (words.order_words cue.now other.now path.now) f.new }
{
    let (cue, other) = (cue_text(cue), cue_text(other));
    let path = Shown { text: path };
    write!(
        f,
        "the stack has another order than {path}: cue {cue} is where the file has cue {other}"
    )
}

// Writes one difference.
fn write_difference<W: fmt::Write>(
    f: &mut fmt::Formatter<W>,
    difference: &Difference,
    path: &str,
) -> fmt::Result
    ensures { WritesOnOk W.write_str_gives f.old result (words.difference_words difference.now path.now) f.new }
{
    match difference {
        Difference::LeftDevice(device) => write_left(f, &Subject::Device(*device), path),
        Difference::MissingDevice(device) => write_missing(f, &Subject::Device(*device), path),
        Difference::LeftCue(cue) => write_left(f, &Subject::Cue(*cue), path),
        Difference::MissingCue(cue) => write_missing(f, &Subject::Cue(*cue), path),
        Difference::OtherPort(device, port) => write_port(f, *device, *port, path),
        Difference::OtherParts(cue) => write_parts(f, cue, path),
        Difference::OtherOrder(cue, other) => write_order(f, cue, other, path),
        Difference::Otherwise => write_around(f, "the store is not what ", path, " says"),
    }
}

// Writes by which command something is had.
fn write_advice<W: fmt::Write>(
    f: &mut fmt::Formatter<W>,
    what: &str,
    about: &About<'_>,
    flag: &str,
) -> fmt::Result
    ensures { WritesOnOk W.write_str_gives f.old result (words.advice_words what.now about.now flag.now) f.new }
{
    let (path, dir) = (Shown { text: about.path }, Shown { text: about.dir });
    write!(f, "to {what}:  cuedesk load {path} {dir} --{flag}")
}

// Writes that each name for a copy is taken.
fn write_no_name<W: fmt::Write>(f: &mut fmt::Formatter<W>, path: &str) -> fmt::Result
    ensures { WritesOnOk W.write_str_gives f.old result (words.no_name_words path.now) f.new }
{
    let path = Shown { text: path };
    write!(
        f,
        "what the store had is NOT kept: {MAX_KEPT} such files stand beside {path}; take old ones away"
    )
}

impl fmt::Display for SaidWords<'_> {
    ghost use Rattle.std.specs.Prelude.{Some};
    ghost use Rattle.cue_load_words.specs.Words.{said_words};

    ghost output = { λ words. Some (said_words words.said.now words.about.now) };

    fn fmt<W: fmt::Write>(&self, f: &mut fmt::Formatter<W>) -> fmt::Result {
        match self.said {
            Said::NoStatus => write_no_status(f, self.about.port),
            Said::Refused(subject, code) => write_refused(f, subject, *code),
            Said::Unanswered(subject) => write_unanswered(f, subject, self.about.port),
            Said::NotWhole => f.write_str("the stack is not whole: load again with --replace"),
            Said::PlaceWas(cue) => write_place(f, cue),
            Said::OtherOrder => f.write_str(
                "the stack may have another order than the file: load with the folder of the store to see it",
            ),
            Said::NoRoom => f.write_str(
                "the stack has no room for all cues of the file beside those that it does not have: \
                 nothing is replaced. Load with --exact",
            ),
            Said::OtherStore => write_other_store(f, self.about.dir, self.about.port),
            Said::NotReplaced => f.write_str(
                "so nothing is replaced: make room there, or load a copy of the show file from another folder",
            ),
            Said::Differs(difference) => write_difference(f, difference, self.about.path),
            Said::ToReplace => write_advice(f, "have what the file says", self.about, "replace"),
            Said::ToRemove => write_advice(
                f,
                "take out what is not in the file",
                self.about,
                "exact",
            ),
            Said::NoName => write_no_name(f, self.about.path),
            Said::NotKept => write_around(
                f,
                "what the store had is NOT kept beside ",
                self.about.path,
                "",
            ),
            Said::NoSocket => f.write_str("no socket"),
        }
    }
}
