//! When each device was heard, what it has not answered, and when to say that it is silent.
ghost use Rattle.std.specs.Prelude.{◌≡◌};
ghost use Rattle.cue_relay.specs.Hearing.{after_answer, after_message, after_order, after_time};
ghost use Rattle.cue_relay.specs.Hearing.{is_answer_due, is_any_overdue, is_going, is_overdue, left_pending};
ghost use Rattle.cue_relay.specs.Hearing.{now_pending};
ghost use Rattle.cue_relay.specs.Hearing.{told_of_answer, told_of_message, told_of_time};
ghost use Rattle.cue_relay.specs.declared.hearing.TheConstants.{SILENCE};

use crate::messages::Message;
use crate::motion::Motion;
use crate::status::Ordered;
use cue_device::Answer;

/// For how long a device may say nothing although a standby or a cancel is pending, in milliseconds.
pub const SILENCE: u64 = 5_000;

/// An order that has no answer.
#[derive(Clone, Copy, Debug, PartialEq, Eq)]
pub struct Pending {
    pub order: Ordered,
    /// The number of its attempt.
    pub seq: u32,
    /// Since when the device has said nothing, in milliseconds since 1970: since the order came first, or since it
    /// answered for another attempt.
    pub since: u64,
}

/// What is known of one device.
#[derive(Clone, Copy, Debug, PartialEq, Eq)]
pub struct Contact {
    /// When its last answer came, in milliseconds since 1970.
    pub heard: Option<u64>,
    pub pending: Option<Pending>,
    pub motion: Motion,
    /// Whether it was said that it is silent.
    pub silent: bool,
}

/// What there is to say of a device.
#[derive(Clone, Copy, Debug, PartialEq, Eq)]
pub enum News {
    FirstHeard,
    HeardAgain,
    /// It has said nothing for five seconds although a standby or a cancel is pending.
    Silent,
}

impl Ordered {
    // Whether the answer is due at once: a device that moves answers at the end of its motion, whenever that is.
    fn is_answer_due(self) -> bool
        ensures { result ≡ is_answer_due self }
    {
        match self {
            Ordered::Standby | Ordered::Cancel => true,
            Ordered::Go => false,
        }
    }
}

impl Pending {
    // Whether the device has said nothing for five seconds although its answer is due. A clock that was put back makes
    // nothing overdue.
    fn is_overdue(self, now: u64) -> bool
        ensures { result ≡ is_overdue self now }
    {
        self.order.is_answer_due() && now >= self.since && now - self.since >= SILENCE
    }
}

fn is_any_overdue(pending: Option<Pending>, now: u64) -> bool
    ensures { result ≡ is_any_overdue pending now }
{
    match pending {
        Some(pending) => pending.is_overdue(now),
        None => false,
    }
}

// What is pending once this order came: a copy is as old as the first one, unless the clock was put back before that.
fn now_pending(pending: Option<Pending>, order: Ordered, seq: u32, now: u64) -> Pending
    ensures { result ≡ now_pending pending order seq now }
{
    let since = match pending {
        Some(pending) if pending.order == order && pending.seq == seq => pending.since.min(now),
        _ => now,
    };
    Pending { order, seq, since }
}

// What is pending still, once the device answered for the attempt of this number.
fn left_pending(pending: Option<Pending>, seq: u32, now: u64) -> Option<Pending>
    ensures { result ≡ left_pending pending seq now }
{
    match pending {
        Some(pending) if pending.seq != seq => Some(Pending {
            order: pending.order,
            seq: pending.seq,
            since: now,
        }),
        _ => None,
    }
}

// Whether the GO of the attempt of this number is its last order, and has no answer.
fn is_going(pending: Option<Pending>, seq: u32) -> bool
    ensures { result ≡ is_going pending seq }
{
    match pending {
        Some(pending) => pending.order.is_go() && pending.seq == seq,
        None => false,
    }
}

impl Contact {
    /// A device that was never heard, and that was sent nothing.
    pub const NEVER: Contact = Contact {
        heard: None,
        pending: None,
        motion: Motion::Unknown,
        silent: false,
    };

    // It answered this.
    fn answer(&mut self, answer: Answer, now: u64) -> Option<News>
        ensures after { self.new ≡ after_answer self.old answer now }
        ensures news { result ≡ told_of_answer self.old }
    {
        let news = match (self.heard, self.silent) {
            (None, _) => Some(News::FirstHeard),
            (Some(_), true) => Some(News::HeardAgain),
            (Some(_), false) => None,
        };
        *self = Contact {
            heard: Some(now),
            pending: left_pending(self.pending, answer.seq(), now),
            motion: self
                .motion
                .after_answer(answer, is_going(self.pending, answer.seq())),
            silent: false,
        };
        news
    }

    // It was sent an order. One that moves is not silent. A late copy of a GO is answered once more, and starts
    // nothing.
    fn order(&mut self, order: Ordered, seq: u32, now: u64)
        ensures { self.new ≡ after_order self.old order seq now }
    {
        if self.motion.is_late(order, seq) {
            return;
        }
        self.pending = Some(now_pending(self.pending, order, seq, now));
        self.motion = self.motion.after_order(order, seq);
        self.silent = self.silent && order.is_answer_due();
    }

    /// This went on from the device or to it. A reply of the controller changes nothing.
    pub fn take(&mut self, message: Message, now: u64) -> Option<News>
        ensures after { self.new ≡ after_message self.old message now }
        ensures news { result ≡ told_of_message self.old message }
    {
        match message {
            Message::Order { order, seq } => {
                self.order(order, seq, now);
                None
            }
            Message::Reply => None,
            Message::Answer(answer) => self.answer(answer, now),
        }
    }

    /// It is this time: a device that has said nothing for five seconds although its answer is due is silent, which is
    /// said once.
    pub fn pass(&mut self, now: u64) -> Option<News>
        ensures after { self.new ≡ after_time self.old now }
        ensures news { result ≡ told_of_time self.old now }
    {
        if self.silent || !is_any_overdue(self.pending, now) {
            return None;
        }
        self.silent = true;
        Some(News::Silent)
    }
}

/// A device is silent after five seconds.
pub fn hearing_limits()
    ensures { SILENCE ≡ 5000 }
{}
