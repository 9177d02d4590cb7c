//! What became of the devices, or of the cues, of a show file.
ghost use Rattle.std.specs.Prelude.{◌≡◌};
ghost use Rattle.cue_load_machine.specs.Counts as counts;

use cue_desk::answered::Answered;
use cue_show::{CueNo, DeviceNo, Parts, Show};

/// What became of a device or of a cue.
#[derive(Clone, Copy, Debug, PartialEq, Eq)]
pub enum Became {
    New,
    /// It was there as it is to be; it may have been moved.
    Known,
    /// It was there and differed.
    Replaced,
    /// It was there, and the file does not have it.
    Removed,
    /// With this code.
    Refused(i32),
}

/// How many became what.
#[derive(Clone, Copy, Debug, PartialEq, Eq)]
pub struct Counts {
    pub added: usize,
    pub known: usize,
    pub replaced: usize,
    pub removed: usize,
    pub refused: usize,
}

/// What became of one that was to be added.
pub fn became_of(answered: Answered) -> Became
    ensures { result ≡ counts.became_of answered }
{
    match answered {
        Answered::Made => Became::New,
        Answered::Known => Became::Known,
        Answered::Refused(code) => Became::Refused(code),
    }
}

// One more of a number.
fn add_one(count: &mut usize)
    ensures { count.new ≡ counts.one_more count.old }
{
    *count = count.saturating_add(1);
}

impl Counts {
    pub const NONE: Counts = Counts {
        added: 0,
        known: 0,
        replaced: 0,
        removed: 0,
        refused: 0,
    };

    /// One more that became this.
    pub fn count(&mut self, became: Became)
        ensures { self.new ≡ counts.counted became self.old }
    {
        match became {
            Became::New => add_one(&mut self.added),
            Became::Known => add_one(&mut self.known),
            Became::Replaced => add_one(&mut self.replaced),
            Became::Removed => add_one(&mut self.removed),
            Became::Refused(_) => add_one(&mut self.refused),
        }
    }

    // One of the store is removed, unless the file has it.
    fn count_left(&mut self, is_in_file: bool)
        ensures { self.new ≡ counts.with_left is_in_file self.old }
    {
        if !is_in_file {
            self.count(Became::Removed);
        }
    }
}

/// What became of these, beside those that are counted.
pub fn count_answers(counted: Counts, answers: &[Answered]) -> Counts
    ensures { result ≡ counts.with_answers counted answers.now }
{
    match answers {
        [] => counted,
        [first, rest @ ..] => {
            let mut counted = counted;
            counted.count(became_of(*first));
            count_answers(counted, rest)
        }
    }
}

// What a plan makes of a device of the file.
fn device_becomes(stored: &Show, device: DeviceNo, port: u16) -> Became
    ensures { result ≡ counts.device_becomes stored.now device port }
{
    match stored.port(device) {
        None => Became::New,
        Some(other) => {
            if other == port {
                Became::Known
            } else {
                Became::Replaced
            }
        }
    }
}

// What a plan makes of a cue of the file.
fn cue_becomes(stored: &Show, cue: CueNo, parts: &Parts) -> Became
    ensures { result ≡ counts.cue_becomes stored.now cue parts.now }
{
    match stored.parts(cue) {
        None => Became::New,
        Some(others) => {
            if *others == *parts {
                Became::Known
            } else {
                Became::Replaced
            }
        }
    }
}

// What a plan makes of each device of the file is counted.
fn count_file_devices(counted: &mut Counts, file: &Show, stored: &Show)
    ensures { counted.new ≡ counts.with_devices stored.now file.now.devices counted.old }
{
    for (device, port) in file.devices() {
        counted.count(device_becomes(stored, *device, *port));
    }
}

// The devices of the store that go are counted.
fn count_left_devices(counted: &mut Counts, file: &Show, stored: &Show)
    ensures { counted.new ≡ counts.with_left_devices file.now stored.now.devices counted.old }
{
    for (device, _) in stored.devices() {
        counted.count_left(file.has_device(*device));
    }
}

// What a plan makes of each cue of the file is counted.
fn count_file_cues(counted: &mut Counts, file: &Show, stored: &Show)
    ensures { counted.new ≡ counts.with_cues stored.now file.now.cues counted.old }
{
    for (cue, parts) in file.cues() {
        counted.count(cue_becomes(stored, *cue, parts));
    }
}

// The cues of the store that go are counted.
fn count_left_cues(counted: &mut Counts, file: &Show, stored: &Show)
    ensures { counted.new ≡ counts.with_left_cues file.now stored.now.cues counted.old }
{
    for (cue, _) in stored.cues() {
        counted.count_left(file.has_cue(*cue));
    }
}

/// What a plan makes of all devices of the file, and, if it is exact, of those of the store that the file does not
/// have.
pub fn count_devices(is_exact: bool, file: &Show, stored: &Show) -> Counts
    ensures { result ≡ counts.devices_of is_exact file.now stored.now }
{
    let mut counted = Counts::NONE;
    count_file_devices(&mut counted, file, stored);
    if is_exact {
        count_left_devices(&mut counted, file, stored);
    }
    counted
}

/// What a plan makes of all cues of the file, and, if it is exact, of those of the store that the file does not have.
pub fn count_cues(is_exact: bool, file: &Show, stored: &Show) -> Counts
    ensures { result ≡ counts.cues_of is_exact file.now stored.now }
{
    let mut counted = Counts::NONE;
    count_file_cues(&mut counted, file, stored);
    if is_exact {
        count_left_cues(&mut counted, file, stored);
    }
    counted
}
