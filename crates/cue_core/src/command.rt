//! What operators ask and devices answer, and what becomes of it.
use cue_exchange::limits::MAX_NUMBER;
use cue_show::{CueNo, DeviceNo, Parts};

/// What a device says in an answer.
#[derive(Clone, Copy, PartialEq, Eq, Debug)]
pub enum AnswerKind {
    /// It is prepared, and waits for the word.
    StandingBy,
    /// It has carried its part out.
    Complete,
    /// It has given its preparation up.
    Cancelled,
    /// It cannot go on, whatever it was doing.
    Abort,
}

/// Why a command is refused. A datagram that is refused whole has a code of its own, 30 to 33 (`Refusal`): no command
/// was read there, so `judge` can never answer one of those.
#[derive(Clone, Copy, PartialEq, Eq, Debug)]
pub enum Code {
    /// 1: the message could not be read whole, and was discarded.
    Unread,
    /// 2: the address is no pattern.
    BadPattern,
    /// 3: no method, cue or device has the address.
    NoMethod,
    /// 4: the arguments are not those of the method.
    Arguments,
    /// 5: a number or a cue number is out of range.
    BadNumber,
    /// 6: the device or cue is there already, with other contents.
    Duplicate,
    /// 7: there is no room for another cue, or for another live attempt.
    Full,
    /// 8: the parts are not ones that a cue can have.
    BadParts,
    /// 9: a part is for a device that is not in the table.
    UnknownDevice,
    /// 10: a cue has a part for the device.
    InUse,
    /// 11: a device of the cue is in a live attempt, or the cue is.
    Busy,
    /// 12: no live attempt is at the cue, or has the device.
    NotLive,
    /// 13: some device of the cue is neither ready nor excused.
    NotReady,
    /// 14: the cue was decided, and that is not taken back.
    Decided,
    /// 15: the attempt has ended, or has gone past what the answer says, or the device was excused from it.
    Stale,
    /// 16: the attempt has not come as far as the answer says.
    Early,
    /// 17: the answer came from another port than the device's.
    WrongPort,
    /// 18: the time is too late for a deadline.
    Clock,
    /// 19: no sequence number is left.
    Exhausted,
    /// 20: the device is not one of the attempt.
    NotPart,
}

impl Code {
    ghost use Rattle.std.specs.Prelude.{◌≡◌};
    ghost use Rattle.cue_core.specs.Codes.{code_number};

    /// The number that the code is sent as.
    pub fn number(self) -> u8
        ensures { result ≡ code_number self }
    {
        match self {
            Code::Unread => 1,
            Code::BadPattern => 2,
            Code::NoMethod => 3,
            Code::Arguments => 4,
            Code::BadNumber => 5,
            Code::Duplicate => 6,
            Code::Full => 7,
            Code::BadParts => 8,
            Code::UnknownDevice => 9,
            Code::InUse => 10,
            Code::Busy => 11,
            Code::NotLive => 12,
            Code::NotReady => 13,
            Code::Decided => 14,
            Code::Stale => 15,
            Code::Early => 16,
            Code::WrongPort => 17,
            Code::Clock => 18,
            Code::Exhausted => 19,
            Code::NotPart => 20,
        }
    }
}

/// What becomes of a command.
#[derive(Clone, Copy, PartialEq, Eq, Debug)]
pub enum Verdict {
    /// It is carried out, by the events that come with the verdict.
    Made,
    /// What it asks for is so already.
    Known,
    /// It is refused.
    No(Code),
}

/// What an operator or a device asks for.
#[derive(Drop)]
pub enum Command {
    /// To be sent the status.
    Status,
    /// To put the device with its port into the table.
    AddDevice(DeviceNo, u16),
    /// To put the cue with its parts on the stack.
    AddCue(CueNo, Parts),
    /// To have the devices of the cue stand by.
    Standby(CueNo),
    /// To carry the cue out.
    Go(CueNo),
    /// To give the preparation of the cue up.
    Cancel(CueNo),
    /// To move the operator to the cue.
    Goto(CueNo),
    /// To take the cue off the stack.
    RemoveCue(CueNo),
    /// The device says something of the attempt with the number.
    Reply(AnswerKind, DeviceNo, u32),
    /// To wait no longer for the device.
    Release(DeviceNo),
    /// To take the device out of the table.
    RemoveDevice(DeviceNo),
    /// What could not be read as a command, and why.
    Bad(Code),
}

impl Command {
    ghost use Rattle.std.specs.Prelude.{◌≡◌};
    ghost use Rattle.cue_core.specs.Judge.{is_fit};

    /// Whether the numbers and parts of the command are ones that there are: a port is not 0, a sequence number is 1 to
    /// 2,147,483,647, and the parts are ones that a cue can have. For whoever reads commands from outside; what is not
    /// so is `Bad`.
    pub fn is_fit(&self) -> bool
        ensures { result ≡ is_fit self.now }
    {
        match self {
            Command::AddDevice(device, port) => {
                // Called for its clause that the number is in range.
                let _number = device.number();
                *port >= 1
            }
            Command::AddCue(cue, parts) => {
                // Called for its clause that the text is a cue number.
                let _text = cue.text();
                parts.is_fit()
            }
            Command::Reply(_, _, seq) => *seq >= 1 && *seq <= MAX_NUMBER,
            Command::Status
            | Command::Standby(_)
            | Command::Go(_)
            | Command::Cancel(_)
            | Command::Goto(_)
            | Command::RemoveCue(_)
            | Command::Release(_)
            | Command::RemoveDevice(_)
            | Command::Bad(_) => true,
        }
    }
}
