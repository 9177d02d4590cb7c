//! The letter of what the machine sends.
ghost use Rattle.std.specs.Prelude.{◌≡◌, IfOk};
ghost use Rattle.cue_ask_machine.specs.Letters.{IsLetterOf};
ghost use Rattle.cue_desk.specs.Together as together;

use cue_ask_machine::{Letter, letter_with};
use cue_desk::together::companions_of;
use cue_show_file::Group;
use cue_station::heard::Send;
use std::alloc::Global;
use std::io::{self, ErrorKind};

/// The letter of what a desk sends whose cues stand by together by these groups of a show file.
pub fn letter_of(alloc: Global, send: Send, groups: &[Group]) -> io::Result<Letter>
    ensures number { IfOk result (λ letter. letter.number ≡ send.ask) }
    ensures letter { let others = together.companions_of groups.now send.order in
        IfOk result (λ letter. IsLetterOf send.order others letter) }
{
    match letter_with(
        alloc,
        send.ask,
        send.order,
        companions_of(groups, send.order),
    ) {
        Ok(letter) => Ok(letter),
        Err(_) => Err(io::Error::from(ErrorKind::OutOfMemory)),
    }
}
