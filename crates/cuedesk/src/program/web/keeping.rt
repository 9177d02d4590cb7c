//! What a page keeps in files: its alarms, where devices stand, and the marks of the evening.
ghost use Rattle.std.specs.Prelude.{◌≡◌, IfOk, option_map, string_bytes};
ghost use Rattle.cuedesk.specs.Devices.{beside};

use super::Server;
use crate::program::marks::MarksFile;
use cue_desk::ending::Ending;
use cue_desk_line::{PageUse, Web};
use cue_desk_run::{AlarmsFile, Desk};
use cue_saying::{Shown, say};
use std::alloc::{AllocError, Global};
use std::fs::{File, Files};
use std::io::{self, Eprint};
use std::net::Net;
use std::time::Clock;

/// Says why something is not kept, if that is so.
pub fn say_loss<R: Eprint>(rt: &R, what: &str, loss: Option<io::Error>) {
    if let Some(why) = loss {
        say(rt, format_args!("{what} cannot be kept: {why}"));
    }
}

// The path of the file in which where devices stand is kept, beside the alarms at this one.
fn path_beside(alloc: Global, alarms: &str) -> Result<String, AllocError>
    ensures { IfOk result (λ path. string_bytes path ≡ beside alarms.now) }
{
    format!(in alloc; "{alarms}.devices")
}

/// The path of the file in which where devices stand is kept: beside that of the alarms, if there is one.
pub fn devices_path(alloc: Global, alarms: Option<&str>) -> Result<Option<String>, AllocError>
    ensures { IfOk result (λ path. option_map string_bytes path ≡ option_map (λ a. beside a.now) alarms.entry) }
{
    match alarms {
        Some(alarms) => Ok(Some(path_beside(alloc, alarms)?)),
        None => Ok(None),
    }
}

/// Hears what a desk kept there of where devices stand. What cannot be read is said, and says nothing of devices.
pub fn hear_devices<R: Files<File = File> + Net + Clock + Eprint + AllocGlobal>(
    rt: &R,
    path: &str,
    desk: &mut Desk<'_, R>,
) {
    let heard = desk.hear_devices(path);
    let path = Shown { text: path };
    match heard {
        Ok(0) => {}
        Ok(passed) => say(
            rt,
            format_args!(
                "{path}: {passed} lines that say of no device where it stands were passed over"
            ),
        ),
        Err(why) => say(
            rt,
            format_args!("{path}: where devices stand cannot be read: {why}"),
        ),
    }
}

// Hears where devices stand, and keeps that from now on: a page that only shows does not.
fn keep_devices<'a, R: Files<File = File> + Net + Clock + Eprint + AllocGlobal>(
    rt: &R,
    page_use: &PageUse,
    path: &'a str,
    desk: &mut Desk<'a, R>,
) -> Result<(), AllocError> {
    hear_devices(rt, path, desk);
    match page_use {
        PageUse::Plays(_) => desk.keep_devices(path),
        PageUse::Shows(_) => Ok(()),
    }
}

// Keeps the alarms of the page where the command line says; a page that only shows hears of those of another.
fn keep_alarms<'a, R: Files<File = File> + Net + Clock + Eprint + AllocGlobal>(
    rt: &R,
    web: &'a Web,
    desk: &mut Desk<'a, R>,
) -> Result<(), Ending> {
    let Some(path) = web.alarms.as_deref() else {
        return Ok(());
    };
    let file = match web.page_use {
        PageUse::Plays(_) => AlarmsFile::Own(path),
        PageUse::Shows(_) => AlarmsFile::OfAnother(path),
    };
    match desk.keep_alarms(file) {
        Ok(()) => Ok(()),
        Err(why) => {
            let path = Shown { text: path };
            say(
                rt,
                format_args!("{path}: no file of alarms, and left as it is: {why}"),
            );
            Err(Ending::Failed)
        }
    }
}

// Shows the marks of the evening, if the command line says where they are. If they cannot be read, that is said: the page
// is there all the same, and looks again.
fn keep_marks<'a, R: Files<File = File> + Net + Clock + Eprint + AllocGlobal>(
    web: &'a Web,
    server: &mut Server<'a, R>,
) {
    let Some(path) = web.marks.as_deref() else {
        return;
    };
    let mut marks = MarksFile::new(path);
    let found = marks.read(server.rt);
    if let Err(why) = &found {
        let path = Shown { text: path };
        say(server.rt, format_args!("{path}: no marks are read: {why}"));
    }
    let none = Vec::new(server.rt.alloc());
    server.pages.put_marks(found.unwrap_or(none));
    server.marks = Some(marks);
}

/// Keeps alarms and marks where the command line says, and where devices stand in this file.
pub fn keep_all<'a, R: Files<File = File> + Net + Clock + Eprint + AllocGlobal>(
    web: &'a Web,
    places: Option<&'a str>,
    server: &mut Server<'a, R>,
) -> Result<(), Ending> {
    keep_alarms(server.rt, web, &mut server.desk)?;
    if let Some(path) = places {
        keep_devices(server.rt, &web.page_use, path, &mut server.desk)?;
    }
    keep_marks(web, server);
    Ok(())
}
