//! What every life of a relay comes to, whatever comes. Each contract is a theorem; there is nothing to run.
ghost use Rattle.std.specs.Prelude.{◌≡◌, ◌<◌};
ghost use Rattle.cue_osc.specs.declared.limits.TheConstants.{MAX_LEN};
ghost use Rattle.cue_relay_machine.specs.Laws.{CopiesOnlyGoes, CountsAll, CutIsTheSame, HandsAtARate, HandsOn};
ghost use Rattle.cue_relay_machine.specs.Laws.{HandsNoClaim, HandsOnlyAnswers, HandsOnlyOrders, KeepsClaims};
ghost use Rattle.cue_relay_machine.specs.Laws.{SaysAgain, SaysFourTimes};
ghost use Rattle.cue_relay_machine.specs.declared.books.TheConstants.{DROPPED_PAUSE, TICK};
ghost use Rattle.cue_relay_machine.specs.declared.copies.TheConstants.{FIRST_COPY, LAST_COPY, SECOND_COPY, THIRD_COPY};
ghost use Rattle.cue_relay_machine.specs.declared.living.TheConstants.{MAX_RECEIVED};

/// Of all that came, what was handed on as it came is what the definition of the relay makes of it: each datagram that
/// goes on once, in order, with its own bytes. What else is sent is copies of a GO (`copies_only_goes`).
pub fn hands_on()
    ensures { HandsOn }
{}

/// What is handed to the controller is one of the four answers, of the device of its route and with the number of an
/// attempt. It came from the device's own address, at the device's own local port, with the same bytes.
pub fn hands_only_answers()
    ensures { HandsOnlyAnswers }
{}

/// What is handed to the stage, a copy too, came from the controller, and is a reply or an order to the device at whose
/// local port it came. It is for that device's address.
pub fn hands_only_orders()
    ensures { HandsOnlyOrders }
{}

/// What is sent at a wake is a copy of a GO: the same bytes, to the same device, by the same socket, within 40
/// milliseconds. Since that GO came no other order did to that device, so none of a later attempt is overtaken; and
/// fewer than three copies of it were sent.
pub fn copies_only_goes()
    ensures { CopiesOnlyGoes }
{}

/// A GO is said four times at most for each time that it came: between it and the next order to its device at most
/// three copies are sent.
pub fn says_four_times()
    ensures { SaysFourTimes }
{}

/// A GO is said again: at a wake at which its next copy is due, 7 milliseconds after it came, then 14, then 28, and not
/// later than 40, if no other order to its device came since.
pub fn says_again()
    ensures { SaysAgain }
{}

/// Of what is handed to the controller from one device, each comes a second after the hundredth before it or later,
/// unless the clock was put back between the two.
pub fn hands_at_a_rate()
    ensures { HandsAtARate }
{}

/// A datagram that is cut to the buffer was too long already: it is dropped, as it would be whole.
pub fn cut_is_the_same()
    ensures { CutIsTheSame MAX_RECEIVED }
{}

/// The counts of a relay are those of its whole life: what was handed on and left, what was handed on and lost, and
/// what was dropped. Each datagram that came is counted once, but for claims; those and copies are counted nowhere.
pub fn counts_all()
    ensures { CountsAll }
{}

/// What is kept of a device's claims is what it told last of itself, of each kind: at the stage's side of its own route,
/// from its own address. What anybody else says changes nothing of it.
pub fn keeps_claims()
    ensures { KeepsClaims }
{}

/// A claim is never handed on: nothing that is handed to the controller is a claim, of whatever device.
pub fn hands_no_claim()
    ensures { HandsNoClaim }
{}

/// A status goes out each 100 milliseconds, and at most each 10,000 it is said how many were dropped. At most 4,100
/// bytes of a datagram are read: more than the longest one has, so that a longer one is seen to be so. The copies of a
/// GO are due 7, 14 and 28 milliseconds after it, so that it is said three times in 20 milliseconds; none is said after
/// 40.
pub fn limits()
    ensures tick { TICK ≡ 100 }
    ensures dropped { DROPPED_PAUSE ≡ 10000 }
    ensures buffer { MAX_RECEIVED ≡ 4100 }
    ensures longer { MAX_LEN < MAX_RECEIVED }
    ensures first_copy { FIRST_COPY ≡ 7 }
    ensures second_copy { SECOND_COPY ≡ 14 }
    ensures third_copy { THIRD_COPY ≡ 28 }
    ensures last_copy { LAST_COPY ≡ 40 }
{}
