//! The door for C to `cue_device`: its calls over numbers and byte slices. `include/cue_device.h` is the page for
//! whoever calls them, and looks for null pointers before it does.
//!
//! The state is a struct of plain numbers that the caller owns. `device_of` in `specs/State.antt` says which device the
//! numbers stand for, and `kept` which numbers stand for a device. Each call reads a `Device` from it, makes the
//! library's call and writes the device back (`specs/Calls.antt`). What is no device is answered with `BAD_CALL`, and
//! is left as it is; so is a report that is not the end of the order.
//!
//! Beside the device the struct has two places: where the last order came from, and the sender that is heard alone. A
//! place is eight bytes that are compared, four of the address and two of the port, as the maker likes. A device hears
//! each sender until its maker names one, since a device on the controller's own machine cannot know the port before it
//! hears an order. The magic word and the size refuse a struct of zeros, of another version or of another program; they
//! cannot show a copy from before a motion.
//!
//! What joins two calls is in `laws`: if each call is handed what the one before left, the struct is one device all
//! along, and so C is told to move at most once for each number.
//!
//! `rt lib` builds `out/libcue_device_c.a`: 13,125 bytes of code and 32 of data on x86-64, and nothing else but
//! `memcpy` and `memset`. The call with the deepest stack, `cue_hear`, takes some 900 bytes.
#![tactic(auto)]

mod answer;
mod codes;
mod exports;
pub mod laws;
mod state;

pub use answer::CueAnswer;
pub use exports::{
    cue_device_cannot, cue_device_gave_up, cue_device_hear, cue_device_hear_only, cue_device_moved,
    cue_device_new, cue_device_prepared, cue_device_restarted, cue_device_tick,
};
pub use state::{CueDevice, CuePlace};
