//! The fields of an encoding: how each is read, written and measured.

mod length;
mod reader;
mod writing;

pub(crate) use length::{cue_len, parts_len};
pub(crate) use reader::Reader;
pub(crate) use writing::{
    put_byte, put_cue, put_entry, put_new_cue, put_numbered, put_u32, reason_number,
};
