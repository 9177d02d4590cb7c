//! What a command with a desk opens.
use super::port_of;
use cue_desk::ending::Ending;
use cue_desk_run::{Desk, Sources};
use cue_files_run::read_file;
use cue_saying::failed;
use cue_show_file::{Group, groups_of};
use std::fs::{File, Files};
use std::io::Eprint;
use std::net::Net;
use std::time::Clock;

/// The desk of these sources; else why there is none is said.
pub fn open_desk<'a, R: Files<File = File> + Net + Clock + Eprint + AllocGlobal>(
    rt: &'a R,
    sources: &Sources<'a>,
) -> Result<Desk<'a, R>, Ending> {
    match Desk::new(rt, sources) {
        Ok(desk) => Ok(desk),
        Err(why) => Err(failed(rt, &why)),
    }
}

/// The cues of a show file that are stood by together, and the port of the controller; no cues without a file.
pub fn groups_and_port<R: Files<File = File> + Eprint + AllocGlobal>(
    rt: &R,
    path: Option<&str>,
    said: Option<u16>,
) -> Result<(Vec<Group>, u16), Ending> {
    let Some(path) = path else {
        return Ok((Vec::new(rt.alloc()), port_of(said, None)));
    };
    let file = read_file(rt, path)?;
    let port = port_of(said, Some(&file));
    let groups = groups_of(rt.alloc(), &file);
    drop(file);
    Ok((groups?, port))
}
