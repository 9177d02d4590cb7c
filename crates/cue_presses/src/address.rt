//! Which commands of show control are for this desk, and what they ask.
ghost use Rattle.std.specs.Prelude.{◌≡◌};
ghost use Rattle.cue_presses.specs.Address as rule;

use crate::intent::Intent;
use cue_midi::{Named, Said, Show};
use cue_show::CueNo;

/// Who this desk is to show control.
#[derive(Clone, Copy, Debug)]
pub struct Address {
    /// Its device, 0 to 126.
    pub id: u8,
    /// Its format, 0 to 126, as 1 for lights and 32 for machinery.
    pub format: u8,
    /// The list whose cues are those of the show, if messages name one.
    pub list: Option<CueNo>,
}

/// The device, or the format, that is all of them.
pub const ALL: u8 = 0x7f;

/// What a command of show control is to this desk.
#[derive(Clone, Copy, PartialEq, Eq, Debug)]
pub enum Spoken {
    Intent(Intent),
    /// It is for another device, or for another format.
    Elsewhere,
    /// It is none of GO and LOAD.
    OtherCommand(u8),
    /// It is LOAD, and names no cue.
    NoCue,
    /// It names a cue of another list.
    OtherList,
    /// It names no cue that a show can have.
    Unfit,
}

// Whether this is the number, or that of all.
fn is_for(number: u8, wanted: u8) -> bool
    ensures { result ≡ rule.is_for number wanted }
{
    wanted == number || wanted == ALL
}

// Whether the list is this one.
fn is_list(list: &Option<CueNo>, named: &CueNo) -> bool
    ensures { result ≡ rule.is_list list.now named.now }
{
    match list {
        Some(list) => list == named,
        None => false,
    }
}

// What a GO intends.
fn go_by(list: &Option<CueNo>, named: &Named) -> Spoken
    ensures { result ≡ rule.go_by list.now named.now }
{
    match named {
        Named::Nothing => Spoken::Intent(Intent::Go(None)),
        Named::Cue(cue) => Spoken::Intent(Intent::Go(Some(*cue))),
        Named::OfList(cue, of) => {
            if is_list(list, of) {
                Spoken::Intent(Intent::Go(Some(*cue)))
            } else {
                Spoken::OtherList
            }
        }
        Named::Unfit => Spoken::Unfit,
    }
}

// What a LOAD intends.
fn load_by(list: &Option<CueNo>, named: &Named) -> Spoken
    ensures { result ≡ rule.load_by list.now named.now }
{
    match named {
        Named::Nothing => Spoken::NoCue,
        Named::Cue(cue) => Spoken::Intent(Intent::Standby(Some(*cue))),
        Named::OfList(cue, of) => {
            if is_list(list, of) {
                Spoken::Intent(Intent::Standby(Some(*cue)))
            } else {
                Spoken::OtherList
            }
        }
        Named::Unfit => Spoken::Unfit,
    }
}

/// What a command of show control is to the desk with this address.
pub fn spoken_to(address: &Address, show: &Show) -> Spoken
    ensures { result ≡ rule.spoken_to address.now show.now }
{
    if !(is_for(address.id, show.id) && is_for(address.format, show.format)) {
        return Spoken::Elsewhere;
    }
    match &show.said {
        Said::Go(named) => go_by(&address.list, named),
        Said::Load(named) => load_by(&address.list, named),
        Said::Other(command) => Spoken::OtherCommand(*command),
    }
}
