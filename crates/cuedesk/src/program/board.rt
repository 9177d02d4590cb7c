//! The command `board`: once as text, or again and again on a terminal.
ghost use Rattle.std.specs.Prelude.{◌≡◌};
ghost use Rattle.cuedesk.specs.Windows.{window_of};

mod drawing;

use super::opening::open_desk;
use super::renewing::{Begun, Renewal, WatchedFile, begin};
use super::sign::{SignWatch, sign_of};
use super::web::{devices_path, hear_devices};
use cue_desk::ending::Ending;
use cue_desk_line::Watched;
use cue_desk_run::{Beat, Desk, Sources};
use cue_files_run::open_store;
use cue_saying::{failed, print, say, say_fault};
use cue_screen::Screen;
use cue_show_file::{Group, ShowFile};
use drawing::joined;
use std::fs::{File, Files};
use std::io::{self, Eprint, Write};
use std::net::Net;
use std::time::Clock;

/// How long a round waits at most, in milliseconds.
const PAUSE: u64 = 20;

/// How many milliseconds lie between two pictures.
const PICTURE: u64 = 100;

/// How long a board waits for what it shows before it is drawn, in milliseconds: once as text, and on a terminal.
const PATIENCE: u64 = 1_000;

const FIRST: u64 = 100;

/// The rows of a window, if they are not given.
const ROWS: u16 = 24;

/// The rows of the window that the board is drawn in; none if it is printed once, as text.
pub fn window_of(is_once: bool, given: Option<u16>) -> Option<u16>
    ensures { result ≡ window_of is_once given }
{
    if is_once {
        None
    } else {
        Some(given.unwrap_or(ROWS))
    }
}

/// The board of one desk.
#[derive(Drop)]
struct Board<'a, R> {
    rt: &'a R,
    desk: Desk<'a, R>,
    dir: &'a str,
    file: Option<ShowFile>,
    watch: Option<WatchedFile<'a>>,
    sign: Option<SignWatch>,
    is_rehearsed: bool,
    // what is told of the show file
    told: Option<String>,
    port: u16,
    log: Option<&'a str>,
    relay: Option<&'a str>,
    // the rows of its window; none if it is printed once
    rows: Option<u16>,
}

impl<'a, R: Files<File = File> + Net + Clock + AllocGlobal> Board<'a, R> {
    // Looks for the sign of a rehearsal.
    fn look_for_sign(&mut self) -> io::Result<()> {
        let now = self.desk.now()?;
        if let Some(sign) = &mut self.sign {
            self.is_rehearsed = sign.look(self.rt, now);
        }
        Ok(())
    }

    // Looks at the show file, and shows it if it is new. If memory is short, what is told of it stays.
    fn renew(&mut self) -> io::Result<()> {
        let Some(watch) = &mut self.watch else {
            return Ok(());
        };
        let Renewal { file, told } = watch.renew(self.rt, &self.desk)?;
        if file.is_some() {
            self.file = file;
        }
        if let Ok(told) = told {
            self.told = told;
        }
        Ok(())
    }
}

// Goes on until the store was read and a status answered, or so many milliseconds have passed.
fn hear_all<R: Files<File = File> + Net + Clock + AllocGlobal>(
    desk: &mut Desk<'_, R>,
    most: u64,
) -> io::Result<()> {
    for _ in 0..u64::MAX {
        desk.round()?;
        if desk.view().is_complete() || desk.now()? > most {
            return Ok(());
        }
        desk.wait(PAUSE)?;
    }
    Ok(())
}

// Says why the store of this folder was not read.
fn say_unread<R: Files<File = File> + Eprint + AllocGlobal>(rt: &R, dir: &str) -> Ending {
    if let Err(why) = open_store(rt, dir) {
        say(rt, why.as_str());
    }
    Ending::Failed
}

// The board as text, once.
fn print_once<R: Files<File = File> + Net + Clock + Eprint + AllocGlobal, W: Write>(
    board: &mut Board<'_, R>,
    writer: &mut W,
) -> Result<(), Ending> {
    if let Err(why) = hear_all(&mut board.desk, PATIENCE) {
        return Err(failed(board.rt, &why));
    }
    if board.desk.view().read.is_none() {
        return Err(say_unread(board.rt, board.dir));
    }
    if let Err(why) = board.look_for_sign() {
        return Err(failed(board.rt, &why));
    }
    let lines = board.all_lines()?;
    print(writer, joined(board.rt.alloc(), &lines)?.as_str())
}

// Hears what is there at first, after which a picture is due.
fn first_round<R: Files<File = File> + Net + Clock + AllocGlobal>(
    desk: &mut Desk<'_, R>,
) -> io::Result<bool> {
    hear_all(desk, FIRST)?;
    Ok(true)
}

// Hears what is there; answers whether a picture is due.
fn round<R: Files<File = File> + Net + Clock + AllocGlobal>(
    board: &mut Board<'_, R>,
    pictures: &mut Beat,
) -> io::Result<bool> {
    board.desk.wait(PAUSE)?;
    board.desk.round()?;
    board.renew()?;
    board.look_for_sign()?;
    Ok(pictures.is_due(board.desk.now()?))
}

// Draws the picture that is due.
fn draw<R: Files<File = File> + Net + Clock + Eprint + AllocGlobal, W: Write>(
    board: &mut Board<'_, R>,
    screen: &mut Screen,
    writer: &mut W,
) -> Result<(), Ending> {
    let lines = board.lines()?;
    let picture = screen.picture(board.rt.alloc(), lines)?;
    print(writer, picture.as_str())
}

// What follows a round: a picture, if one is due, and why the last message was not sent.
fn show_round<R: Files<File = File> + Net + Clock + Eprint + AllocGlobal, W: Write>(
    board: &mut Board<'_, R>,
    screen: &mut Screen,
    is_due: io::Result<bool>,
    writer: &mut W,
) -> Result<(), Ending> {
    match is_due {
        Ok(true) => draw(board, screen, writer)?,
        Ok(false) => {}
        Err(why) => return Err(failed(board.rt, &why)),
    }
    say_fault(board.rt, board.desk.take_fault());
    Ok(())
}

// Draws the first picture, and goes on round by round.
fn show_rounds<R: Files<File = File> + Net + Clock + Eprint + AllocGlobal, W: Write>(
    board: &mut Board<'_, R>,
    screen: &mut Screen,
    writer: &mut W,
) -> Result<(), Ending> {
    let mut pictures = Beat::of(PICTURE);
    let is_due = first_round(&mut board.desk);
    show_round(board, screen, is_due, writer)?;
    for _ in 0..u64::MAX {
        let is_due = round(board, &mut pictures);
        show_round(board, screen, is_due, writer)?;
    }
    Ok(())
}

// The board until the terminal or a signal ends it.
fn show_on<R: Files<File = File> + Net + Clock + Eprint + AllocGlobal, W: Write>(
    board: &mut Board<'_, R>,
    writer: &mut W,
) -> Result<(), Ending> {
    let mut screen = Screen::new(board.rt.alloc());
    let shown = show_rounds(board, &mut screen, writer);
    drop(screen);
    shown
}

// The board of a desk that begins with this show file, where these cues stand by together.
fn open_board<'a, R: Files<File = File> + Net + Clock + Eprint + AllocGlobal>(
    rt: &'a R,
    watched: &'a Watched,
    rows: Option<u16>,
    sign: Option<SignWatch>,
    begun: Begun<'a>,
    together: &'a [Group],
) -> Result<Board<'a, R>, Ending> {
    let sources = Sources {
        name: None,
        dir: watched.dir.as_str(),
        port: begun.port,
        relay: watched.relay.as_deref(),
        together,
    };
    let desk = match open_desk(rt, &sources) {
        Ok(desk) => desk,
        Err(ending) => {
            drop(begun);
            drop(sign);
            return Err(ending);
        }
    };
    let Begun { file, watch, port } = begun;
    Ok(Board {
        rt,
        desk,
        dir: sources.dir,
        file,
        watch,
        sign,
        is_rehearsed: false,
        told: None,
        port,
        log: watched.log.as_deref(),
        relay: sources.relay,
        rows,
    })
}

/// The command `board`: once as text, or again and again in a window of so many rows.
pub fn show_board<R: Files<File = File> + Net + Clock + Eprint + AllocGlobal, W: Write>(
    rt: &R,
    watched: &Watched,
    rows: Option<u16>,
    writer: &mut W,
) -> Result<(), Ending> {
    let sign = sign_of(rt.alloc(), watched.file.as_deref())?;
    let places = devices_path(rt.alloc(), watched.alarms.as_deref())?;
    let (begun, together) = begin(rt, watched.file.as_deref(), watched.port)?;
    let mut board = open_board(rt, watched, rows, sign, begun, &together)?;
    if let Some(path) = places.as_deref() {
        hear_devices(rt, path, &mut board.desk);
    }
    let shown = if rows.is_none() {
        print_once(&mut board, writer)
    } else {
        show_on(&mut board, writer)
    };
    drop(board);
    shown
}
