//! Laws of what is sent, each the contract of a function that does nothing.
ghost use Rattle.cue_outbox.specs.Asked.{AskedOrdersDiffer, NewlyPendingAreAsked, StepsAskAgain};
ghost use Rattle.cue_outbox.specs.Laws.{OrdersAreRead, OrdersDiffer, OrdersHavePorts, RepliesAreRead, StatusIsRead};

/// Each reply that `reply` gives is read by `cue_osc` as what was meant.
pub fn replies_are_read()
    ensures { RepliesAreRead }
{}

/// The status of each state is read by `cue_osc` as what was meant.
pub fn status_is_read()
    ensures { StatusIsRead }
{}

/// Each order that `pending` gives is read by `cue_osc` as what was meant.
pub fn orders_are_read()
    ensures { OrdersAreRead }
{}

/// Each order that `pending` gives goes to a port, since each device of a live attempt is in the table.
pub fn orders_have_ports()
    ensures { OrdersHavePorts }
{}

/// No two of the orders that `pending` gives are the same datagram.
pub fn orders_differ()
    ensures { OrdersDiffer }
{}

/// After events that are acceptable in turn, the orders that were not pending before, as datagrams, are those of
/// the attempts whose devices get new orders by the events, in the new state: by their Start, Go or Cancel.
pub fn newly_pending_are_asked()
    ensures { NewlyPendingAreAsked }
{}

/// After the commands of a datagram, judged in turn, the newly pending are those of the attempts whose devices get
/// new orders by their events.
pub fn steps_ask_again()
    ensures { StepsAskAgain }
{}

/// No two of the orders that `pending_of` gives are the same datagram.
pub fn asked_orders_differ()
    ensures { AskedOrdersDiffer }
{}
