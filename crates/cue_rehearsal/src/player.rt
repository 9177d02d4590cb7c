//! One rehearsed device: what it hears, and what its machine does meanwhile.
ghost use Rattle.std.specs.Prelude.{◌≡◌};
ghost use Rattle.cue_device.specs.Hearing.{answer_ticked, device_at_rest, reported_for, told_as};
ghost use Rattle.cue_device.specs.Meanings.{comes_of};
ghost use Rattle.cue_rehearsal.specs.Playing.{IsMeaning, after_end, after_hearing, answer_at_end, answer_in, begun};
ghost use Rattle.cue_rehearsal.specs.Playing.{due, player_of, told_by, work_after};

use crate::manner::Manner;
use cue_device::{Answer, Device, Heard, Meaning, Order, Report, ReportFault};
use cue_show::DeviceNo;

/// What the machine does.
#[derive(Clone, Copy, PartialEq, Eq, Debug)]
pub struct Work {
    pub order: Order,
    /// The time at which it was ordered, in milliseconds since the rehearsal began.
    pub since: u64,
    /// How long the machine takes for it, in milliseconds.
    pub takes: u64,
}

/// A device of `cue_device` with a machine that is played. Moments are milliseconds since the rehearsal began. As its
/// device it is neither copied nor cloned.
#[derive(Drop)]
pub struct Player {
    device: Device,
    manner: Manner,
    // What the machine does; none if it is at rest.
    work: Option<Work>,
}

impl Player {
    /// A device that has heard of no attempt, with its machine at rest.
    pub fn new(number: DeviceNo, manner: Manner) -> Player
        ensures { result ≡ player_of (device_at_rest number 0) manner }
    {
        Player {
            device: Device::new(number, 0),
            manner,
            work: None,
        }
    }

    /// The device that is played.
    pub fn device(&self) -> &Device
        ensures { result.now ≡ self.now.device }
    {
        &self.device
    }

    /// What the machine does; none if it is at rest.
    pub fn work(&self) -> Option<Work>
        ensures { result ≡ self.now.work }
    {
        self.work
    }

    /// What a datagram is to the device. A silent one hears nothing.
    pub fn meaning(&self, datagram: &[u8]) -> Meaning
        ensures { IsMeaning self.now datagram.now result }
    {
        if self.manner.behaviour.is_silent() {
            return Meaning::Nothing;
        }
        Meaning::of(datagram, self.device.number())
    }

    /// What `hear` would order the machine for this, and what the device would answer. Nothing changes.
    pub fn foresee(&self, meaning: &Meaning) -> Heard
        ensures { result ≡ comes_of meaning.now self.now.device }
    {
        self.device.foresee(meaning)
    }

    /// A datagram came that is this to the device: it hears it, and its machine begins with what it is ordered.
    /// `longer` is how much longer than always the machine takes for that, in milliseconds.
    pub fn hear(&mut self, meaning: &Meaning, now: u64, longer: u32) -> Heard
        ensures state { self.new ≡ after_hearing now longer meaning.now self.old }
        ensures said { result ≡ comes_of meaning.now self.old.device }
    {
        let heard = self.device.hear_meaning(meaning);
        self.work = self.work_after(heard.order, now, longer);
        heard
    }

    /// The order whose end has come.
    pub fn due(&self, now: u64) -> Option<Order>
        ensures { result ≡ due now self.now.work }
    {
        match self.work {
            Some(work) => {
                if work.takes <= now.saturating_sub(work.since) {
                    Some(work.order)
                } else {
                    None
                }
            }
            None => None,
        }
    }

    /// What `end` would give for this order. Nothing changes.
    pub fn foresee_end(&self, order: Order) -> Option<Answer>
        ensures { result ≡ answer_at_end order self.now }
    {
        answer_in(self.device.foresee_report(self.report_at(order)))
    }

    /// The machine has come to the end of an order, that of `due`. It reports to the device, which gives what is
    /// answered.
    pub fn end(&mut self, order: Order) -> Option<Answer>
        ensures state { self.new ≡ after_end order self.old }
        ensures said { result ≡ answer_at_end order self.old }
    {
        self.work = None;
        let reported = match self.report_at(order) {
            Report::Prepared => self.device.prepared(),
            Report::Moved => self.device.moved(),
            Report::GaveUp => self.device.gave_up(),
            Report::Cannot => self.device.cannot(),
        };
        answer_in(reported)
    }

    /// Some four times a second: the abort that nobody asked for, again, until its reply came.
    pub fn tick(&self) -> Option<Answer>
        ensures { result ≡ answer_ticked self.now.device }
    {
        self.device.tick()
    }

    // What the machine reports at the end of an order.
    fn report_at(&self, order: Order) -> Report
        ensures { told_as result (reported_for self.now.device) ≡ told_by order self.now }
    {
        if self.manner.behaviour.breaks_at(order) {
            return Report::Cannot;
        }
        match order {
            Order::Prepare(_) => Report::Prepared,
            Order::Move(_) => Report::Moved,
            Order::GiveUp(_) => Report::GaveUp,
        }
    }

    // What the machine does, once this was ordered.
    fn work_after(&self, order: Option<Order>, now: u64, longer: u32) -> Option<Work>
        ensures { result ≡ work_after (begun self.now.manner now longer) order self.now.work }
    {
        match order {
            Some(order) => Some(Work {
                order,
                since: now,
                takes: self.manner.time_for(order, longer),
            }),
            None => self.work,
        }
    }
}

// What a report is answered with; nothing if it was not in time.
fn answer_in(reported: Result<Option<Answer>, ReportFault>) -> Option<Answer>
    ensures { result ≡ answer_in reported }
{
    match reported {
        Ok(answer) => answer,
        Err(ReportFault::NotOrdered) => None,
    }
}
