//! What is sent with one message, and what its answer is read by.
ghost use Rattle.std.specs.Prelude.{◌≡◌, IfOk, IsErrOf, Ok};
ghost use Rattle.cue_osc.specs.Reading.{datagram_at};
ghost use Rattle.cue_desk.specs.Asks.{IsUnwritable};
ghost use Rattle.cue_desk.specs.Together.{message_with};
ghost use Rattle.cue_desk.specs.declared.asking.AskFault.TheVariants.{Unwritable};
ghost use Rattle.cue_ask_machine.specs.Letters.{IsLetterOf};
ghost use Rattle.cue_ask_machine.specs.Letters as letter;

use cue_desk::asking::AskFault;
use cue_desk::orders::DeskCommand;
use cue_desk::together::{address_with, datagram_with};
use cue_show::CueNo;
use std::alloc::Global;

/// How many bytes of an address a reply shows.
const SHOWN: usize = 64;

/// One message, and what its answer is read by.
#[derive(Drop)]
pub struct Letter {
    /// The number of the ask.
    pub number: u64,
    pub is_status: bool,
    /// How many cues are asked for: 1, also if none is.
    pub count: u8,
    /// The address that is asked, as a reply shows it.
    pub shown: Vec<u8>,
    /// The datagram.
    pub message: Vec<u8>,
}

/// Whether the message is a question for the status.
pub fn is_status(order: DeskCommand) -> bool
    ensures { result ≡ letter.is_status order }
{
    match order {
        DeskCommand::Status => true,
        DeskCommand::OfCue(_, _) => false,
        DeskCommand::Release(_) => false,
        DeskCommand::RemoveDevice(_) => false,
    }
}

// How many cues there are with these others.
fn count_of(others: &[CueNo]) -> u8
    ensures { result ≡ letter.count_of others.now }
{
    match u8::try_from(others.len()) {
        Ok(count) => count.saturating_add(1),
        Err(_) => u8::MAX,
    }
}

/// The letter that asks it, and stands these others by, too.
pub fn letter_with(
    alloc: Global,
    number: u64,
    order: DeskCommand,
    others: &[CueNo],
) -> Result<Letter, AskFault>
    ensures number { IfOk result (λ letter. letter.number ≡ number) }
    ensures asks { let said = message_with order others.now in
        IfOk result (λ letter. datagram_at letter.message.items ≡ Ok said) }
    ensures letter { IfOk result (λ letter. IsLetterOf order others.now letter) }
    ensures unwritable { IsErrOf result Unwritable → IsUnwritable (message_with order others.now) }
{
    let mut shown = address_with(alloc, order, others)?;
    shown.truncate(SHOWN);
    Ok(Letter {
        number,
        is_status: is_status(order),
        count: count_of(others),
        shown,
        message: datagram_with(alloc, order, others)?,
    })
}
