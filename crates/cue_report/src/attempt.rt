//! One attempt as the report follows it.
ghost use Rattle.std.specs.Prelude.{◌≡◌, IfOk, OnOk, string_bytes};
ghost use Rattle.cue_log_lines.specs.Listed.{failure_at};
ghost use Rattle.cue_report.specs.Following as spec;
ghost use Rattle.cue_report.specs.Seen as seen;

use crate::course::{Course, Fate, course_of, fate_by, fate_of, put_course};
use cue_asker::AskerName;
use cue_exchange::Outcome;
use cue_log_lines::listed::first_failure;
use cue_log_lines::{OrderKind, Ordered, Span, Try};
use cue_operator::DeviceVerb;
use cue_show::limits::MAX_PARTS;
use cue_show::{CueNo, DeviceNo};
use std::alloc::{AllocError, Global};

/// Who asked.
#[derive(Clone, Copy, PartialEq, Eq)]
pub enum Who {
    Device(DeviceNo),
    /// Who sent its name before.
    Named(AskerName),
    /// A port of this machine, of which nothing else is known.
    Port(u16),
    /// The log does not say who.
    Unseen,
}

impl Who {
    /// Whether a device asked.
    pub fn is_device(self) -> bool
        ensures { result ≡ spec.is_device self }
    {
        match self {
            Who::Device(_) => true,
            Who::Named(_) | Who::Port(_) | Who::Unseen => false,
        }
    }
}

/// When something was done, in seconds since 1970, and who asked for it.
#[derive(Clone, Copy)]
pub struct Moment {
    pub at: u64,
    pub by: Who,
}

/// How an attempt ended.
#[derive(Clone, Copy)]
pub struct Ended {
    /// When, in seconds since 1970.
    pub at: u64,
    pub outcome: Outcome,
}

/// An attempt.
#[derive(Drop)]
pub struct Attempt {
    pub number: u32,
    pub cue: Option<CueNo>,
    /// The standby; none if the attempt began before the log.
    pub begun: Option<Moment>,
    /// The go; none if it was not given, or before the log.
    pub given: Option<Moment>,
    /// When it was given up, and who asked for that; none if it was not.
    pub given_up: Option<Moment>,
    /// Why it was given up; empty if it was not.
    pub why: String,
    /// Its end; none if the log does not have it.
    pub ended: Option<Ended>,
    /// How long after the standby it ended, as the log says it; none if the log does not have it.
    pub after: Option<Span>,
    pub devices: Vec<Course>,
}

impl Attempt {
    /// An attempt of which its number and its cue are known.
    pub fn new(alloc: Global, attempt: &Try) -> Attempt
        ensures { seen.seen result ≡ seen.new_of attempt.now }
    {
        Attempt {
            number: attempt.number,
            cue: attempt.cue,
            begun: None,
            given: None,
            given_up: None,
            why: String::new(alloc),
            ended: None,
            after: None,
            devices: Vec::new(alloc),
        }
    }

    // The first device of a list failed. Answers the others.
    fn take_failure<'a>(&mut self, failures: &'a [u8]) -> Result<&'a [u8], AllocError>
        ensures { IfOk result (λ rest. (rest.now, seen.seen self.new) ≡
            seen.failure_taken (failure_at failures.now) (seen.seen self.old)) }
    {
        match first_failure(failures) {
            Some((failure, others)) => {
                self.meet(failure.device, fate_of(failure.cause))?;
                Ok(others)
            }
            None => Ok(&[]),
        }
    }

    // The devices of a list failed.
    #[tactic(auto, unfolding(crate::specs::Seen::failures_taken))]
    fn take_failures(&mut self, failures: &[u8]) -> Result<(), AllocError>
        ensures { let taken = seen.failures_taken MAX_PARTS failures.now (seen.seen self.old) in
            OnOk result (seen.seen self.new ≡ taken.1) }
    {
        let mut left = failures;
        for _taken in 0..MAX_PARTS {
            left = self.take_failure(left)?;
        }
        Ok(())
    }

    // It ended so. The outcome is that of the line, whatever was seen before.
    fn set_end(&mut self, at: u64, outcome: Outcome, span: Span)
        ensures { seen.seen self.new ≡ seen.with_end at outcome span (seen.seen self.old) }
    {
        self.ended = Some(Ended { at, outcome });
        self.after = Some(span);
    }

    /// It has ended, by its line, which has the devices that failed.
    #[tactic(auto, unfolding(crate::specs::Seen::after_end))]
    pub fn end(&mut self, at: u64, end: &cue_log_lines::Ended<'_>) -> Result<(), AllocError>
        ensures { OnOk result (seen.seen self.new ≡ seen.after_end at end.now (seen.seen self.old)) }
    {
        self.set_end(at, end.outcome, end.span);
        self.take_failures(end.failures.bytes())
    }

    // It was stood by at this second, if that is not known yet.
    fn begin(&mut self, at: u64, by: &Who)
        ensures { seen.seen self.new ≡ seen.after_begin at by.now (seen.seen self.old) }
    {
        if self.begun.is_none() {
            self.begun = Some(Moment { at, by: *by });
        }
    }

    // It was given at this second, if that is not known yet.
    fn give(&mut self, at: u64, by: &Who)
        ensures { seen.seen self.new ≡ seen.after_give at by.now (seen.seen self.old) }
    {
        if self.given.is_none() {
            self.given = Some(Moment { at, by: *by });
        }
    }

    /// It was given up at this second, if that is not known yet.
    pub fn give_up(&mut self, at: u64, by: &Who, why: String)
        ensures { seen.seen self.new ≡ seen.after_give_up at by.now (string_bytes why) (seen.seen self.old) }
    {
        if self.given_up.is_none() {
            self.given_up = Some(Moment { at, by: *by });
            self.why = why;
        }
    }

    // What a device did is now this.
    fn put(&mut self, course: &Course) -> Result<(), AllocError>
        ensures { OnOk result (seen.seen self.new ≡
            record (seen.seen self.old) { devices = seen.put_course course.now self.old.devices.items }) }
    {
        put_course(&mut self.devices, course)
    }

    // An order to a device was sent: a first STANDBY begins the attempt, a first GO gives it.
    fn begin_or_give(&mut self, kind: OrderKind, at: u64, by: &Who)
        ensures { seen.seen self.new ≡ seen.by_order kind at by.now (seen.seen self.old) }
    {
        match kind {
            OrderKind::Standby => self.begin(at, by),
            OrderKind::Go => self.give(at, by),
            OrderKind::Cancel => {}
        }
    }

    /// An order was sent to a device of it, at this second.
    #[tactic(auto, unfolding(crate::specs::Seen::after_ordered))]
    pub fn order(&mut self, at: u64, by: &Who, ordered: &Ordered) -> Result<(), AllocError>
        ensures { OnOk result (seen.seen self.new ≡ seen.after_ordered at by.now ordered.now (seen.seen self.old)) }
    {
        self.begin_or_give(ordered.kind, at, by);
        let mut course = course_of(&self.devices, ordered.device);
        course.order(ordered.kind, at, ordered.is_sent);
        self.put(&course)
    }

    // A device stands by.
    fn ready(&mut self, device: DeviceNo, at: u64) -> Result<(), AllocError>
        ensures { OnOk result (seen.seen self.new ≡
            seen.with_course (spec.after_ready at) device (seen.seen self.old)) }
    {
        let mut course = course_of(&self.devices, device);
        course.stand_by(at);
        self.put(&course)
    }

    // A device has carried the cue out.
    fn done(&mut self, device: DeviceNo, at: u64) -> Result<(), AllocError>
        ensures { OnOk result (seen.seen self.new ≡
            seen.with_course (spec.after_done at) device (seen.seen self.old)) }
    {
        let mut course = course_of(&self.devices, device);
        course.finish(at);
        self.put(&course)
    }

    /// This became of a device.
    pub fn meet(&mut self, device: DeviceNo, fate: Fate) -> Result<(), AllocError>
        ensures { OnOk result (seen.seen self.new ≡
            seen.with_course (seen.after_fate fate) device (seen.seen self.old)) }
    {
        let mut course = course_of(&self.devices, device);
        course.fate = fate;
        self.put(&course)
    }

    // This became of a device, if the attempt was not given up before.
    fn fail(&mut self, device: DeviceNo, fate: Option<Fate>) -> Result<(), AllocError>
        ensures { OnOk result (seen.seen self.new ≡ seen.after_failing fate device (seen.seen self.old)) }
    {
        match fate {
            Some(fate) if self.given_up.is_none() => self.meet(device, fate),
            _ => Ok(()),
        }
    }

    // A device has answered, or was released.
    fn take_word(&mut self, at: u64, word: DeviceVerb, device: DeviceNo) -> Result<(), AllocError>
        ensures { OnOk result (seen.seen self.new ≡ seen.by_word at word device (seen.seen self.old)) }
    {
        match word {
            DeviceVerb::StandingBy => self.ready(device, at),
            DeviceVerb::Complete => self.done(device, at),
            DeviceVerb::Cancelled | DeviceVerb::Remove => Ok(()),
            DeviceVerb::Abort | DeviceVerb::Release => {
                let fate = fate_by(word, self.is_preparing());
                self.fail(device, fate)
            }
        }
    }

    /// A device has answered, or was released. What has ended stays as it is.
    #[tactic(auto, unfolding(crate::specs::Seen::after_word))]
    pub fn answer(&mut self, at: u64, word: DeviceVerb, device: DeviceNo) -> Result<(), AllocError>
        ensures { OnOk result (seen.seen self.new ≡ seen.after_word at word device (seen.seen self.old)) }
    {
        if self.ended.is_some() {
            return Ok(());
        }
        self.take_word(at, word, device)
    }

    // Whether the devices are asked to stand by, as far as the log says.
    fn is_preparing(&self) -> bool
        ensures { result ≡ seen.is_preparing (seen.seen self.now) }
    {
        self.given.is_none() && self.given_up.is_none() && self.ended.is_none()
    }
}
