//! Whether a device may still move: it was sent a GO, and no answer has shown since that this motion is over.
ghost use Rattle.std.specs.Prelude.{◌≡◌};
ghost use Rattle.cue_relay.specs.Motions.{is_go, is_late, is_over, known_over, motion_after_answer};
ghost use Rattle.cue_relay.specs.Motions.{motion_after_order, over_at};

use crate::status::Ordered;
use cue_device::Answer;

/// What a relay knows of the motions of a device since it was started, whatever the device was sent beside them.
#[derive(Clone, Copy, Debug, PartialEq, Eq)]
pub enum Motion {
    /// Nothing: it may still move by what it was sent before.
    Unknown,
    /// It was sent the GO of the attempt of this number, and no answer has shown that the motion is over.
    Moving(u32),
    /// Its answers have shown that its motions are over, in all attempts up to this number.
    Over(u32),
}

impl Ordered {
    pub(crate) fn is_go(self) -> bool
        ensures { result ≡ is_go self }
    {
        match self {
            Ordered::Go => true,
            Ordered::Standby | Ordered::Cancel => false,
        }
    }
}

impl Motion {
    // Whether the motion in the attempt of this number is known to be over.
    fn is_over(self, seq: u32) -> bool
        ensures { result ≡ is_over self seq }
    {
        match self {
            Motion::Over(over) => seq <= over,
            Motion::Unknown | Motion::Moving(_) => false,
        }
    }

    // Whether an order is a copy of a GO that came after the end of its motion was heard.
    pub(crate) fn is_late(self, order: Ordered, seq: u32) -> bool
        ensures { result ≡ is_late self order seq }
    {
        order.is_go() && self.is_over(seq)
    }

    // What is known once it was sent this. A later STANDBY or CANCEL changes nothing of a motion; but a STANDBY with a
    // number that is over is of a store that counts anew, and nothing is known of its motions there.
    pub(crate) fn after_order(self, order: Ordered, seq: u32) -> Motion
        ensures { result ≡ motion_after_order self order seq }
    {
        match order {
            Ordered::Go => Motion::Moving(seq),
            Ordered::Standby if self.is_over(seq) => Motion::Unknown,
            Ordered::Standby | Ordered::Cancel => self,
        }
    }

    // What is known once it was shown that the motions up to this attempt are over.
    fn over_up_to(self, seq: u32) -> Motion
        ensures { result ≡ known_over self seq }
    {
        match self {
            Motion::Moving(moving) if moving > seq => self,
            Motion::Over(over) => Motion::Over(over.max(seq)),
            Motion::Unknown | Motion::Moving(_) => Motion::Over(seq),
        }
    }

    // What is known once the motion of this one attempt has ended without being carried out.
    fn over_at(self, seq: u32) -> Motion
        ensures { result ≡ over_at self seq }
    {
        match self {
            Motion::Moving(moving) if moving == seq => Motion::Over(seq),
            _ => self,
        }
    }

    // What is known once it answered this. `is_going` says whether the GO of that attempt is its last order, and open:
    // who was sent something newer may abort an attempt in which it moves.
    pub(crate) fn after_answer(self, answer: Answer, is_going: bool) -> Motion
        ensures { result ≡ motion_after_answer is_going self answer }
    {
        match answer {
            Answer::StandingBy(seq) => self.over_up_to(seq.saturating_sub(1)),
            Answer::Complete(seq) => self.over_up_to(seq),
            Answer::Cancelled(seq) | Answer::Abort(seq) if is_going => self.over_at(seq),
            Answer::Cancelled(_) | Answer::Abort(_) => self,
        }
    }
}
