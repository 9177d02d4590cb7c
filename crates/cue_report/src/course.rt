//! What a device does in an attempt, as the report follows it.
ghost use Rattle.std.specs.Prelude.{◌≡◌, OnOk, find, nat_eq, position};
ghost use Rattle.cue_report.specs.Following as spec;
ghost use Rattle.cue_report.specs.Seen as seen;

use cue_log_lines::OrderKind;
use cue_log_lines::listed::Cause;
use cue_operator::DeviceVerb;
use cue_show::DeviceNo;
use std::alloc::AllocError;

/// What became of a device, beside its times.
#[derive(Clone, Copy, PartialEq, Eq)]
pub enum Fate {
    /// It did what it was ordered, so far.
    Well,
    /// It aborted while it prepared: the cue goes without it, or was given up.
    AbortedEarly,
    /// It was released while it prepared: the cue goes without it, or was given up.
    ReleasedEarly,
    /// It aborted after the go.
    Aborted,
    /// It was released after the go.
    Released,
    /// It failed after the go, and the log does not say how.
    Failed,
}

impl Fate {
    /// Whether the device failed after the go.
    pub fn is_failed(self) -> bool
        ensures { result ≡ spec.is_failed self }
    {
        match self {
            Fate::Aborted | Fate::Released | Fate::Failed => true,
            Fate::Well | Fate::AbortedEarly | Fate::ReleasedEarly => false,
        }
    }
}

/// What becomes of a device that aborts or is released.
pub fn fate_by(word: DeviceVerb, is_preparing: bool) -> Option<Fate>
    ensures { result ≡ spec.fate_by word is_preparing }
{
    match (word, is_preparing) {
        (DeviceVerb::Abort, true) => Some(Fate::AbortedEarly),
        (DeviceVerb::Abort, false) => Some(Fate::Aborted),
        (DeviceVerb::Release, true) => Some(Fate::ReleasedEarly),
        (DeviceVerb::Release, false) => Some(Fate::Released),
        (DeviceVerb::StandingBy | DeviceVerb::Complete, _) => None,
        (DeviceVerb::Cancelled | DeviceVerb::Remove, _) => None,
    }
}

/// What became of a device that failed so.
pub fn fate_of(cause: Cause) -> Fate
    ensures { result ≡ spec.fate_of cause }
{
    match cause {
        Cause::Aborted => Fate::Aborted,
        Cause::Released => Fate::Released,
        Cause::Unseen => Fate::Failed,
    }
}

// How many seconds lie between two lines, if both are there; 0 if the clock was put back between them.
fn span(from: Option<u64>, to: Option<u64>) -> Option<u64>
    ensures { result ≡ spec.span from to }
{
    match (from, to) {
        (Some(from), Some(to)) => Some(to.saturating_sub(from)),
        _ => None,
    }
}

/// What a device did in an attempt: its times are those of the lines of the log, in seconds since 1970.
#[derive(Clone, Copy)]
pub struct Course {
    pub device: DeviceNo,
    /// When it was first ordered to stand by, and when it answered that it does.
    pub asked: Option<u64>,
    pub ready: Option<u64>,
    /// When it was first sent GO, and when it answered that it is done.
    pub sent: Option<u64>,
    pub done: Option<u64>,
    pub fate: Fate,
    /// Whether an order to it did not leave this machine.
    pub is_unsent: bool,
}

impl Course {
    // A device of which nothing is known yet.
    fn new(device: DeviceNo) -> Course
        ensures { result ≡ seen.new_course device }
    {
        Course {
            device,
            asked: None,
            ready: None,
            sent: None,
            done: None,
            fate: Fate::Well,
            is_unsent: false,
        }
    }

    /// An order was sent to it, at this second. What was sent first counts.
    pub fn order(&mut self, kind: OrderKind, at: u64, is_sent: bool)
        ensures { self.new ≡ spec.after_order kind at is_sent self.old }
    {
        match kind {
            OrderKind::Standby => self.asked = first_of(self.asked, at),
            OrderKind::Go => self.sent = first_of(self.sent, at),
            OrderKind::Cancel => {}
        }
        self.is_unsent = self.is_unsent || !is_sent;
    }

    /// It stands by, at this second.
    pub fn stand_by(&mut self, at: u64)
        ensures { self.new ≡ spec.after_ready at self.old }
    {
        self.ready = first_of(self.ready, at);
    }

    /// It has carried the cue out, at this second.
    pub fn finish(&mut self, at: u64)
        ensures { self.new ≡ spec.after_done at self.old }
    {
        self.done = first_of(self.done, at);
    }

    /// How many seconds it took to prepare; none if the log has not both lines.
    pub fn prepared(&self) -> Option<u64>
        ensures { result ≡ spec.span self.now.asked self.now.ready }
    {
        span(self.asked, self.ready)
    }

    /// How many seconds it took to move; none if the log has not both lines.
    pub fn moved(&self) -> Option<u64>
        ensures { result ≡ spec.span self.now.sent self.now.done }
    {
        span(self.sent, self.done)
    }
}

// What was there, or else this.
fn first_of(there: Option<u64>, at: u64) -> Option<u64>
    ensures { result ≡ spec.first_of there at }
{
    match there {
        Some(first) => Some(first),
        None => Some(at),
    }
}

// Whether this is the course of a device.
fn is_of(course: &Course, device: DeviceNo) -> bool
    ensures { result ≡ nat_eq course.now.device device }
{
    course.device == device
}

// What a device did, if it is there.
fn course_in(courses: &[Course], device: DeviceNo) -> Option<Course>
    ensures { result ≡ find (λ c. nat_eq c.device device) courses.now }
{
    courses.iter().copied().find(|x| is_of(x, device))
}

/// What a device did; nothing yet, if it is not there.
#[tactic(auto, unfolding(crate::specs::Seen::course_of))]
pub fn course_of(courses: &[Course], device: DeviceNo) -> Course
    ensures { result ≡ seen.course_of device courses.now }
{
    course_in(courses, device).unwrap_or(Course::new(device))
}

// The place of a device, if it is there.
fn place_of(courses: &[Course], device: DeviceNo) -> Option<usize>
    ensures { result ≡ position (λ c. nat_eq c.device device) courses.now }
{
    courses.iter().position(|x| is_of(x, device))
}

/// What a device did is now this.
#[tactic(auto, unfolding(crate::specs::Seen::put_course))]
pub fn put_course(courses: &mut Vec<Course>, course: &Course) -> Result<(), AllocError>
    ensures { OnOk result (courses.new.items ≡ seen.put_course course.now courses.old.items) }
{
    match place_of(courses, course.device) {
        Some(place) => courses[place] = *course,
        None => courses.push(*course)?,
    }
    Ok(())
}
