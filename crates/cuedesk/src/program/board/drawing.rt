//! The lines of a board: those of its view, and what stands before and after them.
ghost use Rattle.std.specs.Prelude.{◌≡◌, ◌-◌, ◌+◌};
ghost use Rattle.cuedesk.specs.Windows.{elsewhere_room};

use super::Board;
use crate::program::beside::{file_line, only, read_log, relay_line};
use crate::program::sign::REHEARSAL;
use cue_board::{Names, board_lines};
use cue_elsewhere::elsewhere_lines;
use cue_show_file::{Group, ShowFile};
use std::alloc::{AllocError, Global};
use std::fs::{File, Files};
use std::net::Net;
use std::time::Clock;

// What the numbers of a view are called, and which cues stand by together.
fn names_of<'n>(file: Option<&'n ShowFile>, together: &'n [Group], port: u16) -> Names<'n> {
    Names {
        file,
        together,
        port,
    }
}

// How many lines the view has in a window of so many rows, with so many other lines and a row for the cursor.
fn room_in(rows: u16, others: usize) -> usize
    ensures { result ≡ rows - (others + 1) }
{
    usize::from(rows).saturating_sub(1).saturating_sub(others)
}

// How many devices that stand elsewhere have room in a window: a quarter of its rows.
fn elsewhere_room(rows: Option<u16>) -> Option<usize>
    ensures { result ≡ elsewhere_room rows }
{
    match rows {
        Some(rows) => Some(usize::from(rows / 4)),
        None => None,
    }
}

impl<'a, R: Files<File = File> + Net + Clock + AllocGlobal> Board<'a, R> {
    // The last lines of the log, if one is shown.
    fn log_lines(&self) -> Result<Vec<String>, AllocError> {
        match self.log {
            Some(path) => read_log(self.rt, path),
            None => Ok(Vec::new(self.rt.alloc())),
        }
    }

    // That a rehearsal plays the devices, before all else, if one does.
    fn sign_lines(&self) -> Result<Vec<String>, AllocError> {
        let alloc = self.rt.alloc();
        if self.is_rehearsed {
            only(alloc, String::from_str(alloc, REHEARSAL)?)
        } else {
            Ok(Vec::new(alloc))
        }
    }

    // The devices that stand elsewhere than the stack supposes.
    fn elsewhere_lines(&self) -> Result<Vec<String>, AllocError> {
        let names = names_of(self.file.as_ref(), self.desk.together(), self.port);
        let room = elsewhere_room(self.rows);
        elsewhere_lines(self.rt.alloc(), self.desk.differences(), &names, room)
    }

    // The lines after those of the view: which devices stand elsewhere, what is told of the show file, and the log.
    fn other_lines(&self) -> Result<Vec<String>, AllocError> {
        let mut lines = self.elsewhere_lines()?;
        lines.append(&mut file_line(self.rt.alloc(), self.told.as_deref())?)?;
        lines.append(&mut self.log_lines()?)?;
        Ok(lines)
    }

    // The lines of the newest view, in the room that these others leave: after the sign, and before the others.
    fn lines_before(&self, others: &mut Vec<String>) -> Result<Vec<String>, AllocError> {
        let mut lines = self.sign_lines()?;
        let names = names_of(self.file.as_ref(), self.desk.together(), self.port);
        let room = match self.rows {
            Some(rows) => Some(room_in(rows, others.len().saturating_add(lines.len()))),
            None => None,
        };
        let mut shown = board_lines(self.rt.alloc(), self.desk.view(), &names, room)?;
        lines.append(&mut shown)?;
        lines.append(others)?;
        Ok(lines)
    }

    /// The lines of the newest view, and after them the others.
    pub(super) fn lines(&self) -> Result<Vec<String>, AllocError> {
        let mut others = self.other_lines()?;
        let lines = self.lines_before(&mut others);
        drop(others);
        lines
    }

    // Why there is nothing of a relay that is watched, if that is so.
    fn relay_lines(&self) -> Result<Vec<String>, AllocError> {
        match self.relay {
            Some(path) if self.desk.view().network.is_empty() => relay_line(self.rt, path),
            _ => Ok(Vec::new(self.rt.alloc())),
        }
    }

    // That serve says otherwise than the files, as it may while a change is under way, if that is so.
    fn differing_lines(&self) -> Result<Vec<String>, AllocError> {
        let (alloc, port) = (self.rt.alloc(), self.port);
        if !self.desk.view().differs {
            return Ok(Vec::new(alloc));
        }
        let line = format!(in alloc;
            "?      serve at port {port} says otherwise: a change is under way, or it has other files"
        )?;
        only(alloc, line)
    }

    /// The lines of a board that is printed once, with what only a second or five of looking would show.
    pub(super) fn all_lines(&self) -> Result<Vec<String>, AllocError> {
        let mut lines = self.lines()?;
        lines.append(&mut self.relay_lines()?)?;
        lines.append(&mut self.differing_lines()?)?;
        Ok(lines)
    }
}

/// The lines as one text.
pub(super) fn joined(alloc: Global, lines: &[String]) -> Result<String, AllocError> {
    let mut text = String::new(alloc);
    for line in lines {
        text.push_str(line.as_str())?;
        text.push_str("\n")?;
    }
    Ok(text)
}
