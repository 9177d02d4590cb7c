//! `cuedesk`: the desk beside `cuectl`. It reads show files, asks one message for each command, and shows the board.
//!
//! It runs beside `cuectl serve` on the same machine, and needs nothing of it but its port and the two files of its
//! store. The program is a thin edge: what it asks, shows and answers is made by the libraries, and what came of it is
//! decided by small functions over values, each with a table. Its status is 0 if a command was made or known, 1 if the
//! controller refuses or a show file has mistakes, 2 if the command line is not understood, 3 if nobody replies or the
//! machine fails.
//!
//! Why it is so:
//! - The board draws the lines that have changed, each at its place, and neither hides the cursor nor takes another
//!   screen: nothing is left to be put back when it is ended by a signal. All lines are drawn again every two seconds,
//!   for a window that has got another size. No call of the kit gives the size of a window: it is taken to have 24
//!   rows, and `--rows` says otherwise.
//! - `board --once` ends as soon as a status was answered and a copy was read. If the two disagree then, it says so:
//!   beside each change they disagree for a moment.
//! - `load --replace` reads the store, since no reply says what the file does not have, nor in which order the known
//!   cues stand. The folder is that of the store that is served as far as the status shows: of two stores with the same
//!   five facts nobody could say which it is. Without the folder `load` adds, and says that it did not compare.
//! - `check` reads the TOML once, which is most of its time.
//! - Relay and rehearsal wait over epoll, by the kit's `mio`, without a thread; a socket has one datagram read in its
//!   turn, so that one that is flooded does not keep the others waiting.
//! - No completion for a shell: the kit's `clap` has none.
//!
//! Only tested: sockets, files, the terminal, the command line, and which ending a command has.
#![tactic(auto)]

mod program;

use cue_desk_line::Environment;
use std::env::{self, VarError};
use std::io::{self, BufWriter, ErrorKind, IsTerminal, Write};
use std::process::ExitCode;

// The words of the command line.
fn words(rt: &HostRuntime) -> io::Result<Vec<String>> {
    Ok(env::args(rt)?.collect(rt.alloc())?)
}

// What this variable of the environment says, if it is set. What is no text is no port, no folder and no name either.
fn said(rt: &HostRuntime, variable: &str) -> io::Result<Option<String>> {
    match env::var(rt, variable) {
        Ok(text) => Ok(Some(text)),
        Err(VarError::NotPresent) => Ok(None),
        Err(VarError::NotUnicode) => Ok(Some(String::from_str(rt.alloc(), "?")?)),
        Err(VarError::OutOfMemory) => Err(io::Error::from(ErrorKind::OutOfMemory)),
    }
}

// Carries out the words of the command line, and answers the exit status. It fails if there is no memory to begin.
fn perform(rt: &HostRuntime) -> io::Result<u8> {
    let words = words(rt)?;
    let port = said(rt, "CUEDESK_PORT")?;
    let store = said(rt, "CUEDESK_STORE")?;
    let file = said(rt, "CUEDESK_FILE")?;
    let name = said(rt, "CUEDESK_AS")?;
    let environment = Environment {
        port: port.as_deref(),
        store: store.as_deref(),
        file: file.as_deref(),
        name: name.as_deref(),
    };
    let is_terminal = rt.stdout().is_terminal();
    let mut writer = BufWriter::new(rt.alloc(), io::writer(rt))?;
    Ok(program::perform(rt, &words, &environment, is_terminal, &mut writer))
}

fn main(rt: HostRuntime) -> ExitCode {
    match perform(&rt) {
        Ok(status) => ExitCode::from(status),
        Err(error) => {
            let name = match error.kind() {
                ErrorKind::OutOfMemory => b"! Memory\n".as_slice(),
                _ => b"! Io\n".as_slice(),
            };
            let _ = io::writer(&rt).write_all(name);
            ExitCode::from(3)
        }
    }
}
