//! `cuectl`: a two-phase cue controller for theatre machinery.
//!
//! The program takes the words of its command line, standard input and standard output from the system, hands them to
//! `cue_program`, and ends with the status that it answers: 0 if a command was carried out, 1 if the show or the script
//! refuses, 2 if the command line is not understood, 3 if the machine fails, also if it finds no memory to begin. The
//! gate runs it on a script that ends in a line that is refused.
//!
//! The calls that the program is made of have their names here, too. Each stands in a library, since no crate can
//! depend on a program.
#![tactic(auto)]

ghost use Rattle.std.specs.Prelude.{◌≡◌};
ghost use Rattle.cue_script.specs.Endings.{failure_of};
ghost use Rattle.cue_script.specs.declared.ending.Ending.TheVariants.{Stopped};

pub use cue_command_line::{Line, LineFault, line};
pub use cue_program::perform;
pub use cue_run::{Ended, RunFault, run};
pub use cue_script::script;
use cue_script::{Ending, StreamFailure};
pub use cue_words::show_text;
use std::env;
use std::io::{self, BufWriter, Write};
use std::process::ExitCode;

// The words of the command line.
fn words(rt: &HostRuntime) -> io::Result<Vec<String>> {
    Ok(env::args(rt)?.collect(rt.alloc())?)
}

// Carries out the words of the command line, and answers the exit status. It fails if there is no memory to begin.
fn perform_words(rt: &HostRuntime) -> io::Result<u8> {
    let alloc = rt.alloc();
    let words = words(rt)?;
    let mut reader = rt.reader();
    let mut writer = BufWriter::new(alloc, io::writer(rt))?;
    Ok(perform(rt, &words, &mut reader, &mut writer))
}

// How the program ends if it did not begin.
fn not_begun(error: &io::Error) -> Ending
    ensures { result ≡ Stopped (failure_of error.now) }
{
    Ending::Stopped(StreamFailure::of(error))
}

fn main(rt: HostRuntime) -> ExitCode {
    match perform_words(&rt) {
        Ok(status) => ExitCode::from(status),
        Err(error) => {
            let ending = not_begun(&error);
            let _ = io::writer(&rt).write_all(ending.line());
            ExitCode::from(ending.status())
        }
    }
}
