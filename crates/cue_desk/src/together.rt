//! Cues that are stood by together: one message for all of them, and its one reply.
ghost use Rattle.std.specs.Prelude.{◌≡◌, ◌++◌, IfOk, IsErrOf, Ok, OnOk, codes};
ghost use Rattle.cue_osc.specs.Reading.{datagram_at};
ghost use Rattle.cue_desk.specs.Asks.{IsUnwritable};
ghost use Rattle.cue_desk.specs.declared.asking.AskFault.TheVariants.{Unwritable};
ghost use Rattle.cue_desk.specs.Together as together;

use crate::asking::{AskFault, cue_address, device_address, message, under};
use crate::orders::DeskCommand;
use crate::replying::Replied;
use cue_core::Code;
use cue_operator::{CueVerb, DeviceVerb};
use cue_show::CueNo;
use cue_show_file::{Group, others_of};
use std::alloc::{AllocError, Global};

// Puts the numbers of the cues after a text, a comma before each.
fn push_cues(text: &mut Vec<u8>, cues: &[CueNo]) -> Result<(), AllocError>
    ensures { OnOk result (text.new.items ≡ text.old.items ++ together.after_commas cues.now) }
{
    match cues {
        [] => Ok(()),
        [first, rest @ ..] => {
            text.push(b',')?;
            text.extend_from_slice(first.text())?;
            push_cues(text, rest)
        }
    }
}

// What names a cue and these others in a pattern.
fn braced(alloc: Global, cue: CueNo, others: &[CueNo]) -> Result<Vec<u8>, AllocError>
    ensures { IfOk result (λ text. text.items ≡ together.braced cue others.now) }
{
    let mut text = Vec::from_slice(alloc, b"{")?;
    text.extend_from_slice(cue.text())?;
    push_cues(&mut text, others)?;
    text.push(b'}')?;
    Ok(text)
}

// The address at which these cues are stood by.
fn together_address(alloc: Global, cue: CueNo, others: &[CueNo]) -> Result<Vec<u8>, AllocError>
    ensures { IfOk result (λ bytes. bytes.items ≡ together.together_address cue others.now) }
{
    let names = braced(alloc, cue, others)?;
    under(alloc, b"/cue/", &names, b"standby")
}

// The cue that a command stands by.
fn standby_of(order: &DeskCommand) -> Option<CueNo>
    ensures { result ≡ together.standby_of order.now }
{
    match order {
        DeskCommand::OfCue(verb, cue) => match verb {
            CueVerb::Standby => Some(*cue),
            _ => None,
        },
        DeskCommand::Status | DeskCommand::Release(_) | DeskCommand::RemoveDevice(_) => None,
    }
}

// The address at which it is asked alone.
fn alone_address(alloc: Global, order: DeskCommand) -> Result<Vec<u8>, AllocError>
    ensures { IfOk result (λ bytes. bytes.items ≡ together.alone_address order) }
{
    match order {
        DeskCommand::Status => Vec::from_slice(alloc, b"/status"),
        DeskCommand::OfCue(verb, cue) => cue_address(alloc, verb, cue),
        DeskCommand::Release(device) => device_address(alloc, DeviceVerb::Release, device),
        DeskCommand::RemoveDevice(device) => device_address(alloc, DeviceVerb::Remove, device),
    }
}

// The address at which it is asked with these others, if it stands this cue by.
fn address_by(
    alloc: Global,
    cue: Option<CueNo>,
    order: DeskCommand,
    others: &[CueNo],
) -> Result<Vec<u8>, AllocError>
    ensures { IfOk result (λ bytes. bytes.items ≡ together.address_by cue order others.now) }
{
    match cue {
        Some(cue) => together_address(alloc, cue, others),
        None => alone_address(alloc, order),
    }
}

/// The address at which it is asked, which stands these others by, too, if it stands a cue by.
pub fn address_with(
    alloc: Global,
    order: DeskCommand,
    others: &[CueNo],
) -> Result<Vec<u8>, AllocError>
    ensures { IfOk result (λ bytes. bytes.items ≡ together.address_with order others.now) }
{
    match others {
        [] => alone_address(alloc, order),
        [_, ..] => address_by(alloc, standby_of(&order), order, others),
    }
}

/// The datagram of the one message that asks for it. `Unwritable` if OSC has none for it.
pub fn datagram_with(
    alloc: Global,
    order: DeskCommand,
    others: &[CueNo],
) -> Result<Vec<u8>, AskFault>
    ensures message { let said = together.message_with order others.now in
        IfOk result (λ bytes. datagram_at bytes.items ≡ Ok said) }
    ensures unwritable { IsErrOf result Unwritable → IsUnwritable (together.message_with order others.now) }
{
    let address = address_with(alloc, order, others)?;
    message(alloc, &address, Vec::new(alloc))
}

/// Those that a command stands by, too, by the groups of a show file.
pub fn companions_of(groups: &[Group], order: DeskCommand) -> &[CueNo]
    ensures { result.now ≡ together.companions_of groups.now order }
{
    match standby_of(&order) {
        Some(cue) => others_of(groups, cue),
        None => &[],
    }
}

// A reply to one command.
fn reply_of(made: i32, known: i32, refused: i32, code: i32) -> Replied
    ensures { result ≡ together.reply_of made known refused code }
{
    Replied::Reply {
        made,
        known,
        refused,
        code,
    }
}

// Whether they are the numbers of a reply, not all 0.
fn are_numbers(made: i32, known: i32, refused: i32) -> bool
    ensures { result ≡ together.are_numbers made known refused }
{
    !(made < 0) && (!(known < 0) && (!(refused < 0) && (0 < made || (0 < known || 0 < refused))))
}

// The code by which one was refused.
fn code_by(refused: i32, code: i32) -> i32
    ensures { result ≡ together.code_by refused code }
{
    if 0 < refused {
        code
    } else {
        i32::from(Code::NoMethod.number())
    }
}

// Whether none was carried out.
fn is_none_made(made: i32, known: i32) -> bool
    ensures { result ≡ together.is_none_made made known }
{
    made == 0 && known == 0
}

// Whether so many were carried out.
fn are_all(count: u8, made: i32, known: i32) -> bool
    ensures { result ≡ together.are_all count made known }
{
    i64::from(made) + i64::from(known) == i64::from(count)
}

// What the reply to one message for so many cues says, as a reply to one command has it.
fn condensed_by(count: u8, made: i32, known: i32, refused: i32, code: i32) -> Replied
    ensures { result ≡ together.condensed_by count made known refused code }
{
    if is_none_made(made, known) {
        reply_of(0, 0, 1, code)
    } else if are_all(count, made, known) {
        if 0 < made {
            reply_of(1, 0, 0, 0)
        } else {
            reply_of(0, 1, 0, 0)
        }
    } else {
        reply_of(1, 0, 1, code_by(refused, code))
    }
}

/// What the reply to one message for so many cues says, as a reply to one command has it; none if it says nothing of
/// any. Made and refused are both 1 if only some of them were carried out: by the code of the first that was refused,
/// or by that of an address that is not there, if the store does not have one of the cues.
pub fn condensed(count: u8, replied: Replied) -> Option<Replied>
    ensures { result ≡ together.condensed count replied }
{
    match replied {
        Replied::Reply {
            made,
            known,
            refused,
            code,
        } => {
            if are_numbers(made, known, refused) {
                Some(condensed_by(count, made, known, refused, code))
            } else {
                None
            }
        }
        Replied::Status(_) => None,
    }
}
