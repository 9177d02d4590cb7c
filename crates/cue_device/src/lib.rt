//! A device's half of the exchange with the cue controller: what it orders its machine, and what it answers.
//!
//! One value for one device, with neither memory of its own nor a clock, a socket or a float. The maker's program
//! receives the datagrams, moves the machine, and reports to the value what the machine has done. `specs/Table.antt` is
//! the table of what it does, cell by cell; `specs/Hearing.antt` says which cell an order meets; `specs/Datagrams.antt`
//! which bytes are an order to it and which are its answers. `specs/Histories.antt` and `specs/Laws.antt` speak of all
//! that may happen.
//!
//!     let mut device = Device::restarted(number, kept);           // the number that was kept: tick() gives its abort
//!     let (order, len) = device.hear_datagram(datagram, &mut out);
//!     socket.send(&out[..len]);                                   // unless len is 0
//!     // order: prepare for device.task(), move, or give up; when the machine has done so:
//!     let len = device.write_answer(device.prepared()?, &mut out);
//!
//! Why it is so:
//! - The cue and the bytes are remembered in place: a standby of the same number is compared byte for byte, without
//!   memory.
//! - A number that is over is answered, abort to a standby or a go, cancelled to a cancel: a device that was restarted
//!   between standby and go would otherwise keep its attempt waiting for ever.
//! - A standby of the same task is not answered once the device has moved. It is a late copy, or the number came back
//!   from a restored store. An abort would show the second at once, and would make a good cue fail if the first
//!   overtakes `complete`. Silence costs a restored store its ten seconds. After the device let go or failed it is
//!   aborted: the attempt is given up by then, or was never decided, so a late copy does no harm.
//! - A restart is announced by an abort of the kept number, the one message that the protocol has for it: a ready
//!   device is asked nothing before GO, so the others would move without it.
//! - The machine reports without a number: it does one order at a time, and a number beside it could only be a wrong
//!   one. One field has the order whose end is not reported, whatever the attempt: so a new number is aborted while the
//!   machine still does what an earlier one asked for.
//! - The value is neither copied nor cloned, and each call that changes it takes it by `&mut`: the laws speak of one
//!   device that goes on from where it was, and one that went on from an older value might move twice. `foresee` tells
//!   what would come of an order without a second value.
//! - A report at a wrong time is an error, and changes nothing: it shows a fault of the maker's loop.
#![tactic(auto)]

mod asked;
mod fields;
mod foreseeing;
mod hearing;
pub mod laws;
mod over_bytes;
mod phase;
mod reading;
mod reports;
mod table;
mod words;
mod writing;

pub use asked::{Command, PartBytes, Task};
pub use hearing::{Device, Heard, ReportFault};
pub use over_bytes::Meaning;
pub use phase::{Attempt, Phase};
pub use reading::{MAX_NUMBER, command};
pub use reports::Report;
pub use words::{Answer, Order};
pub use writing::{MAX_ANSWER, write};
