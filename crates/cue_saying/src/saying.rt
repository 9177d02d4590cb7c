//! What the program says on standard error, and how it prints.
ghost use Rattle.std.specs.Prelude.{◌≡◌, IfErr, OnOk};
ghost use Rattle.std.specs.Io.KnownBytes.{Appends};
ghost use Rattle.cue_desk.specs.declared.ending.Ending.TheVariants.{Failed, Unwritten};

use cue_desk::ending::Ending;
use std::fmt::Display;
use std::io::{self, Eprint, Write};

/// Says something on standard error. If that cannot be written, the ending is the same.
pub fn say<R: Eprint, D: Display + Drop>(rt: &R, what: D) {
    let _ = rt.eprintln(format_args!("cuedesk: {what}"));
}

/// Says why a clock, a socket or memory failed.
pub fn failed<R: Eprint>(rt: &R, why: &io::Error) -> Ending
    ensures { result ≡ Failed }
{
    say(rt, format_args!("the desk cannot go on: {why}"));
    Ending::Failed
}

/// Says why nothing can be sent, if that is so.
pub fn say_fault<R: Eprint>(rt: &R, fault: Option<io::Error>) {
    if let Some(why) = fault {
        say(rt, format_args!("nothing can be sent: {why}"));
    }
}

/// Prints, and sees that all of it left.
pub fn print<W: Write>(writer: &mut W, text: &str) -> Result<(), Ending>
    ensures printed { OnOk result (Appends (W.contents writer.old) (W.contents writer.new) text.now) }
    ensures unwritten { IfErr result (λ ending. ending ≡ Unwritten) }
{
    match writer.write_all(text.as_bytes()) {
        Ok(()) => match writer.flush() {
            Ok(()) => Ok(()),
            Err(_) => Err(Ending::Unwritten),
        },
        Err(_) => Err(Ending::Unwritten),
    }
}
