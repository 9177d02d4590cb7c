//! What every rehearsal comes to, whatever comes. Each contract is a theorem; there is nothing to run.
ghost use Rattle.std.specs.Prelude.{◌≡◌};
ghost use Rattle.cue_rehearsal_machine.specs.Laws.{KeepsTheTable, MovesOnce, SendsOnlyAnswers};
ghost use Rattle.cue_rehearsal_machine.specs.declared.living.TheConstants.{MAX_RECEIVED};
ghost use Rattle.cue_rehearsal_machine.specs.declared.seat.TheConstants.{REPEAT};

/// Each device is what the table of `cue_device` makes of what it heard, each datagram that was not drawn to be lost
/// once and in order, and of the ends to which its machine came.
pub fn keeps_the_table()
    ensures { KeepsTheTable }
{}

/// For each number of an attempt the machine of a device begins to move at most once, whatever copies come.
pub fn moves_once()
    ensures { MovesOnce }
{}

/// Each datagram that leaves is an answer of the device at its socket, by the table, to what happens to it in that very
/// turn. It goes to an address from which an order to this device came.
pub fn sends_only_answers()
    ensures { SendsOnlyAnswers }
{}

/// An abort that nobody asked for is sent again each 250 milliseconds, until its reply came. At most 4,100 bytes of a
/// datagram are read.
pub fn limits()
    ensures again { REPEAT ≡ 250 }
    ensures buffer { MAX_RECEIVED ≡ 4100 }
{}
