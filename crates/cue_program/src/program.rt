//! The program: what each command does, prints and answers.
ghost use Rattle.std.specs.Prelude.{
  ◌≡◌,
  ◌≢◌,
  ◌≤◌,
  ◌⊎◌,
  [],
  false,
  map,
  string_bytes,
  IfErr,
  IfOk,
  IfSome,
  OnOk,
};
ghost use Rattle.std.specs.Io.KnownBytes.{Appends};
ghost use Rattle.clap.specs.Words.{fault_of, subcommand_of};
ghost use Rattle.cue_core.specs.State.{empty_state};
ghost use Rattle.cue_command_line.specs.Lines.{AsksForText, IsHelp, IsNoCommand, cuectl_app};
ghost use Rattle.cue_keeper.specs.Observed.{is_broken};
ghost use Rattle.cue_engine.specs.Observed.{keeper_of};
ghost use Rattle.cue_program.specs.Endings.{unbound_fault};
ghost use Rattle.cue_program.specs.Performing.{EndsSo, HasEnded, IsRunTold, NamesScript};
ghost use Rattle.cue_script.specs.Script.{HasRun};
ghost use Rattle.cue_command_line.specs.declared.words.LineFault.TheVariants.{Memory, Usage};
ghost use Rattle.cue_program.specs.declared.program.fault.ProgramFault.TheVariants.{Io};

pub mod fault;
mod files;
mod forming;
mod lock;
pub(crate) mod looking;
mod place;
mod serving;
pub(crate) mod settling;

use cue_command_line::{Line, LineFault, line};
use cue_copies::refusal_of;
use cue_disk::FileDisk;
use cue_engine::Engine;
use cue_evening::EveningLog;
use cue_keeper::StoreFault;
use cue_run::local;
use cue_script::script;
use fault::{ProgramFault, print_fault, status_of};
use files::{open_both, refused_store, say};
use forming::form;
use lock::lock_store;
use looking::show;
use place::{Place, PlaceWatch};
pub use serving::{serve_engine, serve_on};
use serving::{refused_port, serve_watched};
use settling::settle;
use std::alloc::Global;
use std::fs::{File, Files};
use std::io::{self, Eprint, Read, Write};
use std::net::{Net, UdpSocket};
use std::time::Clock;

// Prints, and sees that all of it left.
fn print<W: Write>(writer: &mut W, text: &[u8]) -> Result<(), ProgramFault>
    ensures printed { OnOk result (Appends (W.contents writer.old) (W.contents writer.new) text.now) }
    ensures io { IfErr result (λ fault. fault ≡ Io) }
{
    match writer.write_all(text) {
        Ok(()) => match writer.flush() {
            Ok(()) => Ok(()),
            Err(_) => Err(ProgramFault::Io),
        },
        Err(_) => Err(ProgramFault::Io),
    }
}

// Why a folder is not served whose port cannot be had: for the fault of its store, if it has one.
fn refused_as<R: Eprint>(
    rt: &R,
    dir: &str,
    port: u16,
    why: io::Error,
    refusal: Option<StoreFault>,
    disks: (FileDisk, FileDisk),
) -> ProgramFault
    ensures { result ≡ unbound_fault refusal }
{
    match refusal {
        Some(fault) => refused_store(rt, dir, (fault, disks.0, disks.1)),
        None => refused_port(rt, port, why),
    }
}

// The same, if it is still to be seen what the store has. Nothing is written.
fn refused_unbound<R: Eprint>(
    rt: &R,
    alloc: Global,
    dir: &str,
    port: u16,
    why: io::Error,
    disks: (FileDisk, FileDisk),
) -> ProgramFault {
    let (mut first, mut second) = disks;
    let refusal = refusal_of(alloc, &mut first, &mut second);
    refused_as(rt, dir, port, why, refusal, (first, second))
}

// Binds the port, sees that the folder stays where it is, and then recovers the show of both files. Nothing is written
// before the port is bound.
fn bound<R: Files<File = File> + Net + Eprint>(
    rt: &R,
    alloc: Global,
    dir: &str,
    port: u16,
    disks: (FileDisk, FileDisk),
) -> Result<(UdpSocket, Engine<FileDisk>), ProgramFault>
    ensures works { IfOk result (λ bound. is_broken (keeper_of bound.1) ≡ false) }
{
    match UdpSocket::bind(rt, local(port)) {
        Ok(socket) => {
            settle(rt, alloc, dir)?;
            match Engine::recover(alloc, disks.0, disks.1) {
                Ok(engine) => Ok((socket, engine)),
                Err(refused) => Err(refused_store(rt, dir, refused)),
            }
        }
        Err(why) => Err(refused_unbound(rt, alloc, dir, port, why, disks)),
    }
}

// Runs the show of a folder at a port. It holds the lock of its store meanwhile, and sees that the files stay there.
#[tactic(auto, using(crate::proofs::ServeLemmas::is_run_told))]
fn serve<R: Files<File = File> + Net + Clock + Eprint, W: Write>(
    rt: &R,
    alloc: Global,
    dir: &str,
    port: u16,
    turns: u64,
    writer: &mut W,
) -> Result<(), ProgramFault>
    ensures { OnOk result (IsRunTold turns (W.contents writer.old) (W.contents writer.new)) }
{
    let disks = open_both(rt, alloc, dir)?;
    let place = Place::of(alloc, dir, &disks)?;
    let lock = lock_store(rt, alloc, dir)?;
    let (socket, engine) = bound(rt, alloc, dir, port, disks)?;
    let mut watch = PlaceWatch::new(rt, dir, place, EveningLog::new(rt, alloc));
    let told = serve_watched(
        rt, alloc, dir, engine, &socket, port, turns, &mut watch, writer,
    );
    drop(lock);
    told
}

// The exit status if there is no command, or if help was asked for.
fn refused_line<R: Eprint, W: Write>(rt: &R, fault: LineFault, writer: &mut W) -> u8
    ensures help { result ≡ 0 → IsHelp fault }
    ensures usage { result ≡ 2 → fault ≡ Usage }
    ensures memory { fault ≡ Memory → result ≡ 3 }
    ensures statuses { (result ≤ 3) × (result ≢ 1) }
{
    match fault {
        LineFault::Help(text) => status_of(print(writer, text.as_bytes()), writer),
        LineFault::Usage => {
            say(
                rt,
                "the command line is not understood",
                "see cuectl --help",
            );
            print_fault(writer, b"! Usage\n");
            2
        }
        LineFault::Memory => {
            let refused: Result<(), ProgramFault> = Err(ProgramFault::MEMORY);
            status_of(refused, writer)
        }
    }
}

// Carries out a command, and answers the exit status.
fn carry_out<R: Files<File = File> + Net + Clock + Eprint, I: Read, W: Write>(
    rt: &R,
    alloc: Global,
    line: Line,
    reader: &mut I,
    writer: &mut W,
) -> u8
    ensures ends { EndsSo line result (I.remaining reader.old) (W.contents writer.old) (W.contents writer.new) }
    ensures statuses { (result ≤ 3) × (result ≢ 2) }
{
    match line {
        Line::Form { dir } => status_of(form(rt, alloc, dir.as_str(), writer), writer),
        Line::Serve { dir, port, turns } => {
            status_of(serve(rt, alloc, dir.as_str(), port, turns, writer), writer)
        }
        Line::Show { dir } => status_of(show(rt, alloc, dir.as_str(), writer), writer),
        Line::Script => script(alloc, reader, writer),
    }
}

/// Carries a command line out, the program's name first, and answers the exit status: 0 if it is done, 1 if the
/// show or the script refuses, 2 if the words are no command, 3 if the machine does. A refusal is printed as
/// `! NAME`; why, and of which file or port, stands on standard error. It takes no allocator: `rt` has one.
pub fn perform<R: Files<File = File> + Net + Clock + Eprint + AllocGlobal, I: Read, W: Write>(
    rt: &R,
    words: &[String],
    reader: &mut I,
    writer: &mut W,
) -> u8
    ensures statuses { result ≤ 3 }
    // 0 comes if a text was asked for, or if a command was carried out; then it is known what was printed.
    ensures done { result ≡ 0 → AsksForText (fault_of cuectl_app (map string_bytes words.now))
        ⊎ HasEnded (map string_bytes words.now) result (I.remaining reader.old) (W.contents writer.old)
        (W.contents writer.new) }
    // 1 comes only of words that clap takes, and 2 only if they are no command.
    ensures refused { result ≡ 1 → fault_of cuectl_app (map string_bytes words.now) ≡ [] }
    ensures usage { result ≡ 2 → IsNoCommand (map string_bytes words.now) }
    // If they name a script, what is written is what its lines make, by its status.
    ensures script { fault_of cuectl_app (map string_bytes words.now) ≡ []
        → NamesScript (subcommand_of cuectl_app (map string_bytes words.now))
        → IfSome (I.remaining reader.old)
        (λ text. HasRun empty_state text result (W.contents writer.old) (W.contents writer.new)) }
{
    let alloc = rt.alloc();
    match line(alloc, words) {
        Ok(line) => carry_out(rt, alloc, line, reader, writer),
        Err(fault) => refused_line(rt, fault, writer),
    }
}
