//! The command `buttons`: a real desk presses over MIDI what the page would press.
use super::opening::{groups_and_port, open_desk};
use super::sign::{REHEARSAL, sign_of};
use cue_buttons_run::{Console, hear_all};
use cue_desk::ending::Ending;
use cue_desk_line::Buttons;
use cue_desk_run::Sources;
use cue_panel::Setting;
use cue_saying::say;
use cue_show_file::Group;
use std::fs::{File, Files};
use std::io::{Eprint, Write};
use std::net::Net;
use std::time::Clock;

// A desk with a panel at a controller's port, where these cues stand by together.
fn open_console<'a, R: Files<File = File> + Net + Clock + Eprint + AllocGlobal>(
    rt: &'a R,
    buttons: &'a Buttons,
    together: &'a [Group],
    port: u16,
) -> Result<Console<'a, R>, Ending> {
    let sources = Sources {
        dir: buttons.dir.as_str(),
        port,
        relay: None,
        name: buttons.name,
        together,
    };
    let setting = Setting {
        keys: buttons.keys,
        address: buttons.address,
        port,
    };
    let desk = open_desk(rt, &sources)?;
    Ok(Console::new(rt, desk, setting))
}

/// The command `buttons`: until the device ends or a signal ends it.
pub fn hear_buttons<R: Files<File = File> + Net + Clock + Eprint + AllocGlobal, W: Write>(
    rt: &R,
    buttons: &Buttons,
    writer: &mut W,
) -> Result<(), Ending> {
    let (together, port) = groups_and_port(rt, buttons.file.as_deref(), buttons.port)?;
    let mut console = open_console(rt, buttons, &together, port)?;
    if let Some(sign) = &mut sign_of(rt.alloc(), buttons.file.as_deref())? {
        if sign.look(rt, 0) {
            say(rt, REHEARSAL);
        }
    }
    let heard = hear_all(rt, buttons.midi.as_str(), &mut console, writer);
    drop(console);
    heard
}
