//! Laws of what the desk asks, each the contract of a function that does nothing.
ghost use Rattle.cue_desk.specs.Loading.{AskedIsRead, CheckedIsTaken};

/// From the message that asks for something a controller reads exactly that command: one, and no other. The cue or the
/// device is in its show, unless it is to be added.
pub fn asked_is_read()
    ensures { AskedIsRead }
{}

/// A show file that passes the check is taken by a controller with an empty show, message by message: each is read as
/// exactly its command, and each command is made. Then the controller has the show that the check found.
pub fn checked_is_taken()
    ensures { CheckedIsTaken }
{}
