//! One device: what it hears, what its machine reports, and what comes of both.
ghost use Rattle.std.specs.Prelude.{◌≡◌, Some, is_none};
ghost use Rattle.cue_device.specs.declared.hearing.Told.TheVariants.{Prepared, Moved, GaveUp, Cannot};
ghost use Rattle.cue_device.specs.Hearing.{after_command, after_reply, after_told, answer_ticked, answer_told};
ghost use Rattle.cue_device.specs.Hearing.{begun, what_comes_of, left_after};
ghost use Rattle.cue_device.specs.Hearing.{attempt_with_report, place};
ghost use Rattle.cue_device.specs.Hearing.{answer_call, after_call, device_restarted, is_in_time, reported_for};
ghost use Rattle.cue_device.specs.Hearing.{device_at_rest, said_by, phase_now, task_now, after_cell};
ghost use Rattle.cue_device.specs.Hearing.{with_parts};

use crate::asked::{Command, Task};
use crate::phase::{Attempt, Cell, Phase};
use crate::reports::left_after;
use crate::table::{again, answer_over, new_number};
use crate::words::{Answer, Order, doing_after};
use cue_show::DeviceNo;

/// What comes of an order of the controller: what the machine is to do now, and what is to be answered now.
#[derive(Clone, Copy, PartialEq, Eq, Debug)]
pub struct Heard {
    pub order: Option<Order>,
    pub answer: Option<Answer>,
}

/// Why a report of the machine was refused.
#[derive(Clone, Copy, PartialEq, Eq, Debug)]
pub enum ReportFault {
    /// It is not the end of what the machine was ordered; or the machine is at rest, and in no attempt that could be
    /// aborted. Nothing changes.
    NotOrdered,
}

/// What the machine reports of the attempt of this number.
#[derive(Clone, Copy)]
pub enum Told {
    /// It has prepared.
    Prepared(u32),
    /// It has carried the cue out.
    Moved(u32),
    /// It has given up what it prepared.
    GaveUp(u32),
    /// It cannot go on, and is at rest.
    Cannot(u32),
}

/// Where a number lies as a device sees it.
#[derive(Clone, Copy)]
pub enum Place {
    /// It is over: below the attempt's, or not above what was over from the start.
    Over,
    /// It is that of the attempt.
    Same(Attempt),
    /// It is above all that the device has heard of.
    New,
}

/// A device. All of its state is in this value: it takes no memory, and its caller may keep it in static memory. It is
/// neither copied nor cloned: a device that goes on from an older value might move again.
#[derive(Drop)]
pub struct Device {
    number: DeviceNo,
    // The highest number that it has heard of.
    last: u32,
    // What it has made of that number; none if the number is over.
    attempt: Option<Attempt>,
    // The order whose end the machine has not reported.
    doing: Option<Order>,
    // Whether it said by itself that it cannot go on, or that it restarted, and has no reply to that.
    unheard: bool,
}

impl Device {
    /// A device of this number for a new store: its machine is at rest and holds nothing. The attempts up to the number
    /// `over` are over, 0 for none.
    pub fn new(number: DeviceNo, over: u32) -> Device
        ensures { result ≡ device_at_rest number over }
    {
        Device {
            number,
            last: over,
            attempt: None,
            doing: None,
            unheard: false,
        }
    }

    /// A device of this number that has restarted: its machine is at rest and holds nothing, and `kept` is the `last`
    /// that was kept. The attempts up to it are over. `tick` gives the abort of `kept` at once, and again until its
    /// reply came: a cue that waits for this device is so given up before anybody moves. If 0 was kept there is
    /// nothing to say.
    pub fn restarted(number: DeviceNo, kept: u32) -> Device
        ensures { result ≡ device_restarted number kept }
    {
        Device {
            unheard: kept > 0,
            ..Device::new(number, kept)
        }
    }

    /// The device with these parts, as `number`, `last`, `phase` and `task`, `doing` and `tick` gave them last. It is for
    /// the door for C alone, where the caller keeps the parts in a struct in place of the value. That caller owes that
    /// they are the newest, and that no other device goes on from them: with older parts the machine may be ordered to
    /// move again.
    pub fn from_kept_parts(
        number: DeviceNo,
        last: u32,
        attempt: Option<Attempt>,
        doing: Option<Order>,
        unheard: bool,
    ) -> Device
        ensures { result ≡ with_parts number last attempt doing unheard }
    {
        Device {
            number,
            last,
            attempt,
            doing,
            unheard,
        }
    }

    /// The number of the device.
    pub fn number(&self) -> DeviceNo
        ensures { result ≡ self.now.number }
    {
        self.number
    }

    /// The highest number of an attempt that the device has heard of: what is kept for a restart, before the machine
    /// carries an order out.
    pub fn last(&self) -> u32
        ensures { result ≡ self.now.last }
    {
        self.last
    }

    /// What the device is asked to prepare for, which is what an order to prepare means; none if it has heard no
    /// standby of its last number.
    pub fn task(&self) -> Option<Task>
        ensures { result ≡ task_now self.now.attempt }
    {
        match self.attempt {
            Some(attempt) => attempt.task,
            None => None,
        }
    }

    /// How far the device has come in the attempt of its last number; none if that number is over.
    pub fn phase(&self) -> Option<Phase>
        ensures { result ≡ phase_now self.now.attempt }
    {
        match self.attempt {
            Some(attempt) => Some(attempt.phase),
            None => None,
        }
    }

    /// The order whose end the machine has not reported; none if it is free.
    pub fn doing(&self) -> Option<Order>
        ensures { result ≡ self.now.doing }
    {
        self.doing
    }

    /// An order of the controller came. What the machine is ordered is carried out, and the answer is sent, at once. A
    /// standby of a new number that comes while the machine still does what an earlier one asked for is aborted, and
    /// orders nothing.
    pub fn hear(&mut self, command: &Command) -> Heard
        ensures state { self.new ≡ after_command command.now self.old }
        ensures said { result ≡ what_comes_of command.now self.old }
    {
        match self.place(command.seq()) {
            Place::Over => Heard {
                order: None,
                answer: Some(answer_over(command)),
            },
            Place::Same(attempt) => {
                let task = attempt.task;
                let cell = again(command, attempt);
                self.take(cell, task)
            }
            Place::New => {
                let cell = new_number(command, self.doing.is_none());
                let task = command.task();
                self.begin(command.seq());
                self.take(cell, task)
            }
        }
    }

    /// The machine has prepared, as it was ordered. No answer if the attempt has gone on.
    pub fn prepared(&mut self) -> Result<Option<Answer>, ReportFault>
        ensures state { self.new ≡ after_call (Prepared (reported_for self.old)) self.old }
        ensures said { result ≡ answer_call (Prepared (reported_for self.old)) self.old }
    {
        self.report(Told::Prepared(self.reported_for()))
    }

    /// The machine has carried the cue out, as it was ordered. No answer if the attempt has gone on.
    pub fn moved(&mut self) -> Result<Option<Answer>, ReportFault>
        ensures state { self.new ≡ after_call (Moved (reported_for self.old)) self.old }
        ensures said { result ≡ answer_call (Moved (reported_for self.old)) self.old }
    {
        self.report(Told::Moved(self.reported_for()))
    }

    /// The machine has given up what it prepared, as it was ordered. No answer if the attempt has gone on.
    pub fn gave_up(&mut self) -> Result<Option<Answer>, ReportFault>
        ensures state { self.new ≡ after_call (GaveUp (reported_for self.old)) self.old }
        ensures said { result ≡ answer_call (GaveUp (reported_for self.old)) self.old }
    {
        self.report(Told::GaveUp(self.reported_for()))
    }

    /// The machine cannot go on, and is at rest: with what it was ordered, or with what it holds. If that is an
    /// abort `tick` gives it again until its reply came. No answer if the attempt has gone on.
    pub fn cannot(&mut self) -> Result<Option<Answer>, ReportFault>
        ensures state { self.new ≡ after_call (Cannot (reported_for self.old)) self.old }
        ensures said { result ≡ answer_call (Cannot (reported_for self.old)) self.old }
    {
        self.report(Told::Cannot(self.reported_for()))
    }

    /// At once after a restart, and some four times a second: the abort that nobody asked for, again, until its reply
    /// came or a new number.
    pub fn tick(&self) -> Option<Answer>
        ensures { result ≡ answer_ticked self.now }
    {
        if self.unheard {
            Some(Answer::Abort(self.last))
        } else {
            None
        }
    }

    /// The controller has replied to an abort of this device.
    pub fn hear_reply(&mut self)
        ensures { self.new ≡ after_reply self.old }
    {
        self.unheard = false;
    }

    pub(crate) fn place(&self, seq: u32) -> Place
        ensures { result ≡ place self.now seq }
    {
        if seq > self.last {
            return Place::New;
        }
        match self.attempt {
            Some(attempt) => {
                if seq == self.last {
                    Place::Same(attempt)
                } else {
                    Place::Over
                }
            }
            None => Place::Over,
        }
    }

    // A new number begins.
    fn begin(&mut self, seq: u32)
        ensures { self.new ≡ begun seq self.old }
    {
        self.last = seq;
        self.unheard = false;
    }

    // The attempt of the last number takes the cell.
    fn take(&mut self, cell: Cell, task: Option<Task>) -> Heard
        ensures state { self.new ≡ after_cell task cell self.old }
        ensures said { result ≡ said_by cell }
    {
        let Cell {
            phase,
            order,
            answer,
        } = cell;
        self.attempt = Some(Attempt { phase, task });
        self.doing = doing_after(order, self.doing);
        Heard { order, answer }
    }

    // The number for which the machine reports: that of the order that it carries out; at rest, the last one.
    pub(crate) fn reported_for(&self) -> u32
        ensures { result ≡ reported_for self.now }
    {
        match self.doing {
            Some(order) => order.seq(),
            None => self.last,
        }
    }

    // Whether the machine may report this now.
    pub(crate) fn is_in_time(&self, told: Told) -> bool
        ensures { result ≡ is_in_time told self.now }
    {
        match self.doing {
            Some(order) => told.ends(order),
            None => match self.place(told.seq()) {
                Place::Same(attempt) => told.cell(attempt.phase).answer.is_some(),
                Place::Over | Place::New => false,
            },
        }
    }

    // The machine reports this, if it may.
    fn report(&mut self, told: Told) -> Result<Option<Answer>, ReportFault>
        ensures state { self.new ≡ after_call told self.old }
        ensures said { result ≡ answer_call told self.old }
    {
        if self.is_in_time(told) {
            Ok(self.tell(told))
        } else {
            Err(ReportFault::NotOrdered)
        }
    }

    // The machine has reported this.
    fn tell(&mut self, told: Told) -> Option<Answer>
        ensures state { self.new ≡ after_told told self.old }
        ensures said { result ≡ answer_told told self.old }
    {
        let place = self.place(told.seq());
        self.doing = left_after(told, self.doing);
        match place {
            Place::Same(attempt) => {
                let cell = told.cell(attempt.phase);
                let task = attempt.task;
                self.note(told, cell, task);
                cell.answer
            }
            Place::Over | Place::New => None,
        }
    }

    // The attempt goes on as the machine reported, if that is something new.
    fn note(&mut self, told: Told, cell: Cell, task: Option<Task>)
        ensures { self.new ≡ attempt_with_report told task cell self.old }
    {
        if cell.answer.is_some() {
            let _ = self.take(cell, task);
            self.unheard = told.waits_for_reply(self.unheard);
        }
    }
}
