//! What the relay says of its plan and of its end.
ghost use Rattle.std.specs.Prelude.{◌≡◌};
ghost use Rattle.std.specs.Fmt.{WritesOnOk};
ghost use Rattle.cue_relay_words.specs.Words as words;

use crate::planning::Lack;
use cue_machine::Why;
use cue_relay::Address;
use std::fmt;
use std::net::Ipv4Addr;

/// What the show file with this path lacks.
#[derive(Clone, Copy, Drop)]
pub struct LackWords<'a> {
    pub path: &'a str,
    pub lack: Lack,
}

// What a file lacks.
fn write_lack<W: fmt::Write>(f: &mut fmt::Formatter<W>, lack: Lack) -> fmt::Result
    ensures { WritesOnOk W.write_str_gives f.old result (words.lack_words lack) f.new }
{
    match lack {
        Lack::Device => f.write_str("no device has an address: there is nothing to relay"),
        Lack::SharedPort(port) => write!(
            f,
            "two devices with an address have the port {port}: give each its own"
        ),
        Lack::Listen => f.write_str(
            "a line as `listen = \"10.0.7.1\"` is missing: this machine's own address there",
        ),
    }
}

impl fmt::Display for LackWords<'_> {
    ghost use Rattle.std.specs.Prelude.{Some};
    ghost use Rattle.cue_relay_words.specs.Words.{lack_line};

    ghost output = { λ words. Some (lack_line words.path.now words.lack) };

    fn fmt<W: fmt::Write>(&self, f: &mut fmt::Formatter<W>) -> fmt::Result {
        write!(f, "{}: ", self.path)?;
        write_lack(f, self.lack)
    }
}

/// What the relay stands between, and how many devices it relays.
#[derive(Clone, Copy, Debug, PartialEq, Eq)]
pub struct Begun {
    pub controller: Address,
    /// Where this machine is on the stage's network: the octets as one number.
    pub stage: u32,
    pub count: usize,
}

// What is put after the word for one, if there are so many.
fn plural(count: usize) -> &'static str
    ensures { result.now ≡ words.plural count }
{
    if count == 1 { "" } else { "s" }
}

impl fmt::Display for Begun {
    ghost use Rattle.std.specs.Prelude.{Some};
    ghost use Rattle.cue_relay_words.specs.Words.{begun_words};

    ghost output = { λ begun. Some (begun_words begun) };

    fn fmt<W: fmt::Write>(&self, f: &mut fmt::Formatter<W>) -> fmt::Result {
        let (count, end) = (self.count, plural(self.count));
        let (controller, stage) = (self.controller, Ipv4Addr::from_bits(self.stage));
        write!(
            f,
            "relaying {count} device{end} between {controller} and {stage}"
        )
    }
}

/// Why the relay ended.
pub fn ended_words(why: Why) -> &'static str
    ensures { result.now ≡ words.ended_words why }
{
    match why {
        Why::Ears | Why::End => "a socket failed",
        Why::Memory => "out of memory",
        Why::Turns | Why::Over => "it has had its turns",
    }
}

/// That the status file with this path is on a disk: the relay writes it in its one thread.
#[derive(Clone, Copy, Drop)]
pub struct DiskWords<'a> {
    pub path: &'a str,
}

impl fmt::Display for DiskWords<'_> {
    ghost use Rattle.std.specs.Prelude.{Some};
    ghost use Rattle.cue_relay_words.specs.Words.{disk_words};

    ghost output = { λ words. Some (disk_words words.path.now) };

    fn fmt<W: fmt::Write>(&self, f: &mut fmt::Formatter<W>) -> fmt::Result {
        let path = self.path;
        write!(
            f,
            "{path}: the status file is on a disk: if that hangs, the relay hangs with it: use /run"
        )
    }
}
