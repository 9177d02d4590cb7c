//! The program: what each command does, prints and answers.
ghost use Rattle.std.specs.Prelude.{◌≡◌, ◌↔◌};
ghost use Rattle.cue_desk.specs.Endings.{ending_status};
ghost use Rattle.cue_desk.specs.Lines.{IsHelp, IsUsage};
ghost use Rattle.cue_desk.specs.declared.line.LineFault.TheVariants.{Memory};
ghost use Rattle.cuedesk.specs.Carrying as carrying;

mod beside;
mod board;
mod buttons;
mod editing;
mod locking;
mod marks;
mod new;
mod next;
mod opening;
mod orders;
mod rehearsing;
mod relaying;
mod renewing;
mod reporting;
mod sheet;
mod sign;
mod web;

use board::{show_board, window_of};
use buttons::hear_buttons;
use cue_desk::ending::Ending;
use cue_desk::line::LineFault;
use cue_desk::orders::DeskCommand;
use cue_desk::ports::{PORT, controller_port};
use cue_desk_line::{Environment, Line, line};
use cue_files_run::{check_file, export};
use cue_loading_run::{Loaded, load};
use cue_operator::CueVerb;
use cue_report::marks::Curtain;
use cue_saying::{print, say};
use cue_show_file::ShowFile;
use editing::edit_file;
use new::write_new;
use next::press_word;
use orders::carry_order;
use rehearsing::rehearse;
use relaying::relay_devices;
use reporting::{mark_curtain, report_evening};
use sheet::print_sheet;
use std::fs::{File, Files};
use std::io::{Eprint, Write};
use std::net::Net;
use std::random::RandomSource;
use std::time::Clock;
use web::serve_page;

/// The port of the controller: the one that was said, else that of the show file, else 9100.
pub fn port_of(said: Option<u16>, file: Option<&ShowFile>) -> u16 {
    controller_port(said, file.and_then(|file| file.port))
}

// The exit status of a command that is not done. If its output failed, that is said.
fn end<R: Eprint>(rt: &R, ending: Ending) -> u8
    ensures { result ≡ ending_status ending }
{
    if ending == Ending::Unwritten {
        say(rt, "the output cannot be written");
    }
    ending.status()
}

// The exit status if there is no command, or if help was asked for.
fn refused_line<R: Eprint, W: Write>(rt: &R, fault: LineFault, writer: &mut W) -> u8
    ensures help { result ≡ 0 → IsHelp fault }
    ensures usage { (result ≡ 2) ↔ IsUsage fault }
    ensures memory { fault ≡ Memory → result ≡ 3 }
{
    match fault {
        LineFault::Help(text) => match print(writer, text.as_str()) {
            Ok(()) => 0,
            Err(ending) => end(rt, ending),
        },
        LineFault::Usage(why) => {
            say(rt, why.as_str().trim_end());
            2
        }
        LineFault::Memory => {
            say(rt, "out of memory");
            3
        }
    }
}

// What is marked.
fn curtain_of(is_up: bool) -> Curtain
    ensures { result ≡ carrying.curtain_of is_up }
{
    if is_up { Curtain::Up } else { Curtain::Down }
}

// The exit status of a command that was carried out, or was not.
fn status_of<R: Eprint>(rt: &R, carried: Result<(), Ending>) -> u8
    ensures { result ≡ carrying.status_of carried }
{
    match carried {
        Ok(()) => 0,
        Err(ending) => end(rt, ending),
    }
}

// Carries a command out.
fn carry_out<R: Files<File = File> + Net + Clock + RandomSource + Eprint + AllocGlobal, W: Write>(
    rt: &R,
    line: &Line,
    is_terminal: bool,
    writer: &mut W,
) -> Result<(), Ending>
    ensures { carrying.IsCarriedOut line.now result (W.contents writer.old) (W.contents writer.new) }
{
    match line {
        Line::Check { file } => check_file(rt, file.as_str(), writer),
        Line::Load {
            file,
            dir,
            port,
            manner,
        } => {
            let what = Loaded {
                path: file.as_str(),
                dir: dir.as_deref(),
                manner: *manner,
                tells: is_terminal,
            };
            load(rt, what, *port, writer)
        }
        Line::Export { dir } => export(rt, dir.as_str(), writer),
        Line::New { file } => write_new(rt, file.as_str(), writer),
        Line::Edit { file, editing } => edit_file(rt, file.as_str(), editing, writer),
        Line::Sheet { file, html, title } => {
            print_sheet(rt, file.as_str(), title.as_str(), *html, writer)
        }
        Line::Board {
            watched,
            once,
            rows,
        } => {
            let is_once = *once || !is_terminal;
            show_board(rt, watched, window_of(is_once, *rows), writer)
        }
        Line::Web(web) => serve_page(rt, web, writer),
        Line::Buttons(buttons) => hear_buttons(rt, buttons, writer),
        Line::Press(pressed) => press_word(rt, pressed, writer),
        Line::Rehearse(rehearsal) => rehearse(rt, rehearsal, writer),
        Line::Relay { file, port, status } => {
            relay_devices(rt, file.as_str(), *port, status.as_deref(), writer)
        }
        Line::Report(report) => report_evening(rt, report, writer),
        Line::Mark { file, is_up } => {
            mark_curtain(rt, file.as_str(), curtain_of(*is_up), writer)
        }
        Line::Ask { order, port, name } => carry_order(rt, order, &[], *port, name, writer),
        Line::StandBy {
            cue,
            others,
            port,
            name,
        } => {
            let order = DeskCommand::OfCue(CueVerb::Standby, *cue);
            carry_order(rt, &order, others, *port, name, writer)
        }
    }
}

/// Carries a command line out, the program's name first, and answers the exit status: 0 if it is done, 1 if the
/// controller refuses or a show file has mistakes, 2 if the command line is not understood, 3 if nobody
/// replies or the machine fails. Why stands on standard error. The environment says the port of the controller, the
/// folder of the store, and who asks, if the command line does not.
pub fn perform<R: Files<File = File> + Net + Clock + RandomSource + Eprint + AllocGlobal, W: Write>(
    rt: &R,
    words: &[String],
    environment: &Environment<'_>,
    is_terminal: bool,
    writer: &mut W,
) -> u8
    ensures { carrying.IsPerformed result (W.contents writer.old) (W.contents writer.new) }
{
    match line(rt.alloc(), words, environment) {
        Ok(line) => {
            let carried = carry_out(rt, &line, is_terminal, writer);
            drop(line);
            status_of(rt, carried)
        }
        Err(fault) => refused_line(rt, fault, writer),
    }
}
