//! What a device orders its machine, and what it answers the controller.

ghost use Rattle.std.specs.Prelude.{◌≡◌};
ghost use Rattle.cue_device.specs.Hearing.{ordered_for, answered_for, doing_after};

/// What the machine is to do now, for the attempt of this number.
#[derive(Clone, Copy, PartialEq, Eq, Debug)]
pub enum Order {
    /// Prepare for the task that `Device::task` gives, and give up first what is held for an earlier number. The
    /// machine reports the end by `Device::prepared`.
    Prepare(u32),
    /// Carry the cue out. The machine reports the end by `Device::moved`.
    Move(u32),
    /// Give up what is prepared, or is being prepared. The machine reports the end by `Device::gave_up`.
    GiveUp(u32),
}

impl Order {
    /// The number of the attempt.
    pub fn seq(self) -> u32
        ensures { result ≡ ordered_for self }
    {
        match self {
            Order::Prepare(seq) | Order::Move(seq) | Order::GiveUp(seq) => seq,
        }
    }
}

/// What a device answers in the attempt of this number.
#[derive(Clone, Copy, PartialEq, Eq, Debug)]
pub enum Answer {
    /// `standing_by`: it has prepared.
    StandingBy(u32),
    /// `complete`: it has carried the cue out.
    Complete(u32),
    /// `cancelled`: it holds nothing for the attempt.
    Cancelled(u32),
    /// `abort`: it cannot go on.
    Abort(u32),
}

impl Answer {
    /// The number of the attempt.
    pub fn seq(self) -> u32
        ensures { result ≡ answered_for self }
    {
        match self {
            Answer::StandingBy(seq) | Answer::Complete(seq) => seq,
            Answer::Cancelled(seq) | Answer::Abort(seq) => seq,
        }
    }
}

// The order whose end is not reported, once this was ordered.
pub(crate) fn doing_after(order: Option<Order>, doing: Option<Order>) -> Option<Order>
    ensures { result ≡ doing_after order doing }
{
    match order {
        Some(order) => Some(order),
        None => doing,
    }
}
