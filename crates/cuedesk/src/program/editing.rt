//! The command `edit`: a show file is changed in its place, and the text before is kept beside it.
ghost use Rattle.std.specs.Prelude.{◌≡◌, IfOk};
ghost use Rattle.cue_edit.specs.Outcome.{IsEdited};

use cue_desk::ending::Ending;
use cue_desk_line::Editing;
use cue_edit::{Change, Edit, EditFault, Edited, apply, done_words, refused_words};
use cue_files_run::read_file;
use cue_saying::{Shown, print, say};
use cue_show_file::{Finding, ShowFile};
use std::alloc::{AllocError, Global};
use std::fs::{self, File, Files, OpenOptions};
use std::io::{self, Eprint, ErrorKind, Write};

/// A file beside a show file.
#[derive(Drop)]
struct Beside {
    /// The text before the last change.
    before: String,
    /// A text that is about to take the place of the show file.
    new: String,
    /// One that is about to take the place of the text before.
    new_before: String,
}

// The files beside this show file.
fn names_beside(alloc: Global, path: &str) -> Result<Beside, AllocError> {
    Ok(Beside {
        before: format!(in alloc; "{path}.before")?,
        new: format!(in alloc; "{path}.new")?,
        new_before: format!(in alloc; "{path}.before.new")?,
    })
}

// Makes a file anew with this text, which is on the disk then, and lets those read and write it who may do so with the
// show file. A link or a pipe that stands there is removed, and never followed or opened.
fn make_anew<R: Files<File = File>>(rt: &R, path: &str, text: &str, show: &str) -> io::Result<()> {
    match fs::remove_file(rt, path) {
        Ok(()) => {}
        Err(why) if why.kind() == ErrorKind::NotFound => {}
        Err(why) => return Err(why),
    }
    let mut options = OpenOptions::new();
    let _ = options.write(true);
    let _ = options.create_new(true);
    let mut file = options.open(rt, path)?;
    file.set_permissions(fs::metadata(rt, show)?.permissions())?;
    file.write_all(text.as_bytes())?;
    file.sync_all()
}

// Has the show file hold a new text, and the file beside it the one before. At each moment both are whole; a stop
// between the two steps leaves the show file as it was.
fn keep_both<R: Files<File = File> + AllocGlobal>(
    rt: &R,
    path: &str,
    old: &str,
    new: &str,
) -> io::Result<()> {
    let beside = names_beside(rt.alloc(), path)?;
    make_anew(rt, beside.new.as_str(), new, path)?;
    make_anew(rt, beside.new_before.as_str(), old, path)?;
    fs::rename(rt, beside.new_before.as_str(), beside.before.as_str())?;
    fs::rename(rt, beside.new.as_str(), path)
}

// The same, with the show file first: a stop between the two steps leaves it changed, and the text before in a file
// beside it.
fn swap_both<R: Files<File = File> + AllocGlobal>(
    rt: &R,
    path: &str,
    old: &str,
    new: &str,
) -> io::Result<()> {
    let beside = names_beside(rt.alloc(), path)?;
    make_anew(rt, beside.new_before.as_str(), old, path)?;
    make_anew(rt, beside.new.as_str(), new, path)?;
    fs::rename(rt, beside.new.as_str(), path)?;
    fs::rename(rt, beside.new_before.as_str(), beside.before.as_str())
}

// Says why a file was not read or written.
fn failed<R: Eprint>(rt: &R, path: &str, why: &io::Error) -> Ending {
    let path = Shown { text: path };
    say(rt, format_args!("{path}: {why}"));
    Ending::Failed
}

// The text of a file; else why it was not read is said.
fn text_of<R: Files<File = File> + Eprint + AllocGlobal>(
    rt: &R,
    path: &str,
) -> Result<String, Ending> {
    match fs::read_to_string(rt, path) {
        Ok(text) => Ok(text),
        Err(why) => Err(failed(rt, path, &why)),
    }
}

// Says each mistake that the changed file would have.
fn say_mistakes<R: Eprint>(rt: &R, path: &str, found: &[Finding]) {
    let path = Shown { text: path };
    for finding in found {
        let _ = rt.eprintln(format_args!("{path}:{finding}"));
    }
}

// Says why a change is refused.
fn refuse<R: Eprint + AllocGlobal>(
    rt: &R,
    path: &str,
    edit: &Edit,
    fault: &EditFault,
) -> Result<Ending, AllocError> {
    if let EditFault::Mistakes(found) = fault {
        say_mistakes(rt, path, found);
    }
    let words = refused_words(rt.alloc(), edit, fault)?;
    let (path, words) = (Shown { text: path }, words.as_str());
    say(rt, format_args!("{path}: {words}"));
    Ok(Ending::Refused)
}

// The file after this change, if it is taken; else why it is not is said.
fn changed<R: Eprint + AllocGlobal>(
    rt: &R,
    path: &str,
    text: &str,
    file: &ShowFile,
    edit: &Edit,
) -> Result<Edited, Ending>
    ensures { IfOk result (IsEdited edit.now file.now) }
{
    match apply(rt.alloc(), text, file, edit)? {
        Ok(edited) => Ok(edited),
        Err(fault) => Err(refuse(rt, path, edit, &fault)?),
    }
}

// What is to be done after such a change: the controller is told of numbers and order, and of no sign.
fn next_step(change: &Change) -> &'static str {
    match change {
        Change::Sign(_) => "",
        Change::Before(_) | Change::Copy(_) => "; load the file with --replace",
    }
}

// Says what was done, and what takes it back.
fn tell_changed<R: AllocGlobal, W: Write>(
    rt: &R,
    path: &str,
    edit: &Edit,
    writer: &mut W,
) -> Result<(), Ending> {
    let done = done_words(rt.alloc(), edit)?;
    let (path, done, next) = (Shown { text: path }, done.as_str(), next_step(&edit.change));
    let text = format!(in rt.alloc(); "{path}: {done}{next}; --undo takes it back\n")?;
    print(writer, text.as_str())
}

// Changes the file.
fn change<R: Files<File = File> + Eprint + AllocGlobal, W: Write>(
    rt: &R,
    path: &str,
    edit: &Edit,
    writer: &mut W,
) -> Result<(), Ending> {
    let file = read_file(rt, path)?;
    let text = text_of(rt, path)?;
    let edited = changed(rt, path, text.as_str(), &file, edit)?;
    match keep_both(rt, path, text.as_str(), edited.text.as_str()) {
        Ok(()) => tell_changed(rt, path, edit, writer),
        Err(why) => Err(failed(rt, path, &why)),
    }
}

// Takes the last change back: the file and the one before change places. The one before has to have no mistake.
fn undo<R: Files<File = File> + Eprint + AllocGlobal, W: Write>(
    rt: &R,
    path: &str,
    writer: &mut W,
) -> Result<(), Ending> {
    let names = names_beside(rt.alloc(), path)?;
    let before = names.before.as_str();
    read_file(rt, before)?;
    let (text, old) = (text_of(rt, path)?, text_of(rt, before)?);
    match swap_both(rt, path, text.as_str(), old.as_str()) {
        Ok(()) => {
            let path = Shown { text: path };
            let said = format!(in rt.alloc();
                "{path}: the last change is taken back; --undo makes it again\n"
            )?;
            print(writer, said.as_str())
        }
        Err(why) => Err(failed(rt, path, &why)),
    }
}

/// The command `edit`: one change of a show file that has no mistake, or the last one back. A change that cannot be
/// ends it with status 1, and one that cannot be written with 3; the file then stays as it is.
pub fn edit_file<R: Files<File = File> + Eprint + AllocGlobal, W: Write>(
    rt: &R,
    path: &str,
    editing: &Editing,
    writer: &mut W,
) -> Result<(), Ending> {
    match editing {
        Editing::Change(edit) => change(rt, path, edit, writer),
        Editing::Undo => undo(rt, path, writer),
    }
}
