//! How a show is served at a socket, and what is told of how that ended.
ghost use Rattle.std.specs.Prelude.{◌≡◌, ◌≤◌, [], IfOk, IfSome, IsErrOf, None, OnErr, OnOk};
ghost use Rattle.std.specs.Io.KnownBytes.{Appends};
ghost use Rattle.cue_engine.specs.Taking.{IsOffered};
ghost use Rattle.cue_program.specs.Endings.{run_fault};
ghost use Rattle.cue_program.specs.Performing.{HasServed, most_read, turns_text};
ghost use Rattle.cue_run.specs.Running.{Ran};
ghost use Rattle.cue_run.specs.Through.{RunsThrough};
ghost use Rattle.cue_run.specs.declared.groups.TheConstants.{MAX_TOGETHER};
ghost use Rattle.cue_program.specs.declared.program.fault.ProgramFault.TheVariants.{Net};

use super::fault::{ProgramFault, run_fault};
use super::files::{say, say_failures};
use super::print;
use cue_disk::{Disk, FileDisk};
use cue_engine::Engine;
use cue_evening::{EveningLog, LoggedWire, say_ready};
use cue_keeper::Fault;
use cue_run::{Ended, MAX_TOGETHER, RunFault, UdpReceiver, UdpSource, UdpWire, Watch, run_grouped};
use std::alloc::Global;
use std::io::{self, Eprint, Write};
use std::net::UdpSocket;
use std::time::Clock;

// Runs the show over a socket that is bound to this port, for so many turns at most, with a watch that looks on.
fn serve_beside<'a, R: Clock, D: Disk, V: Watch<LoggedWire<UdpWire<'a>>>>(
    rt: &'a R,
    alloc: Global,
    engine: &mut Engine<D>,
    socket: &'a UdpSocket,
    port: u16,
    turns: u64,
    watch: &mut V,
) -> io::Result<Ended>
    ensures ran { IfOk result (λ ended.
        Ran most_read MAX_TOGETHER turns ended engine.old engine.new None None None None) }
    ensures through { IfOk result (λ ended.
        RunsThrough most_read ended.turns engine.old engine.new None None None None) }
    ensures dropped { OnOk result (IsOffered [] engine.new) }
    ensures at_most { IfOk result (λ ended. ended.turns ≤ turns) }
    ensures err { OnErr result (engine.new ≡ engine.old) }
{
    let mut source = UdpSource::new(rt, UdpReceiver::new(socket)?, port)?;
    let mut wire = LoggedWire::new(alloc, UdpWire::new(socket));
    let most = MAX_TOGETHER;
    Ok(run_grouped(alloc, engine, &mut source, &mut wire, turns, most, watch))
}

/// Runs the show over a socket that is bound to this port, for so many turns at most, in groups, and keeps the log of
/// the evening on standard error. It fails if the socket cannot be read, or there is no memory to begin; then nothing
/// was taken.
pub fn serve_on<'a, R: Clock + Eprint, D: Disk>(
    rt: &'a R,
    alloc: Global,
    engine: &mut Engine<D>,
    socket: &'a UdpSocket,
    port: u16,
    turns: u64,
) -> io::Result<Ended>
    // The state is what the definition of a run makes of the inputs that were taken, no more than so many of them; it
    // ended for its reason, and the engine works on unless a device failed. What a socket gave and sent is in no clause.
    ensures ran { IfOk result (λ ended.
        Ran most_read MAX_TOGETHER turns ended engine.old engine.new None None None None) }
    // It goes from hand-out to commit and from commit to hand-out; the promise holds at each moment of its disks.
    ensures through { IfOk result (λ ended.
        RunsThrough most_read ended.turns engine.old engine.new None None None None) }
    // Nothing is left of what was offered before it, nor of what it offered.
    ensures dropped { OnOk result (IsOffered [] engine.new) }
    // If it fails the engine is as it was.
    ensures err { OnErr result (engine.new ≡ engine.old) }
{
    let mut log = EveningLog::new(rt, alloc);
    serve_beside(rt, alloc, engine, socket, port, turns, &mut log)
}

/// Says why the port cannot be served.
pub(crate) fn refused_port<R: Eprint>(rt: &R, port: u16, why: io::Error) -> ProgramFault
    ensures { result ≡ Net }
{
    let _ = rt.eprintln(format_args!("cuectl: 127.0.0.1:{port}: {why}"));
    ProgramFault::Net
}

// Says that it is ready, and runs the show.
fn serve_at<'a, R: Clock + Eprint, V: Watch<LoggedWire<UdpWire<'a>>>>(
    rt: &'a R,
    alloc: Global,
    dir: &str,
    engine: &mut Engine<FileDisk>,
    socket: &'a UdpSocket,
    port: u16,
    turns: u64,
    watch: &mut V,
) -> Result<Ended, ProgramFault>
    ensures ran { IfOk result (λ ended.
        Ran most_read MAX_TOGETHER turns ended engine.old engine.new None None None None) }
    ensures through { IfOk result (λ ended.
        RunsThrough most_read ended.turns engine.old engine.new None None None None) }
{
    say_ready(rt, alloc, dir, port);
    match serve_beside(rt, alloc, engine, socket, port, turns, watch) {
        Ok(ended) => Ok(ended),
        Err(why) => Err(refused_port(rt, port, why)),
    }
}

// Prints how a run ended.
fn print_turns<W: Write>(alloc: Global, ended: &Ended, writer: &mut W) -> Result<(), ProgramFault>
    ensures { OnOk result (Appends (W.contents writer.old) (W.contents writer.new)
        (turns_text ended.now.turns ended.now.unsent)) }
{
    let text = format!(in alloc; "turns {} unsent {}\n", ended.turns, ended.unsent)?;
    print(writer, text.as_bytes())
}

// Says why a run was not carried on; if a disk failed, which file, and how.
fn say_fault<R: Eprint>(rt: &R, dir: &str, engine: Engine<FileDisk>, fault: Fault) {
    let (first, second) = engine.close();
    say(rt, dir, fault);
    say_failures(rt, &first, &second);
}

// Why a run was not carried on.
fn refused_run<R: Eprint>(
    rt: &R,
    dir: &str,
    engine: Engine<FileDisk>,
    why: RunFault,
) -> ProgramFault
    ensures { result ≡ run_fault why }
{
    match why {
        RunFault::Source => {
            drop(engine);
            say(rt, "127.0.0.1", "the socket or the clock failed");
        }
        RunFault::Engine(fault) => say_fault(rt, dir, engine, fault),
    }
    run_fault(why)
}

// Prints how a run ended, or says why it failed.
fn finish<R: Eprint, W: Write>(
    rt: &R,
    alloc: Global,
    dir: &str,
    engine: Engine<FileDisk>,
    ended: Ended,
    writer: &mut W,
) -> Result<(), ProgramFault>
    ensures refused { IfSome ended.fault (λ why. IsErrOf result (run_fault why)) }
    ensures well { OnOk result (ended.fault ≡ None) }
    ensures printed { OnOk result (Appends (W.contents writer.old) (W.contents writer.new)
        (turns_text ended.turns ended.unsent)) }
{
    match ended.fault {
        None => {
            drop(engine);
            print_turns(alloc, &ended, writer)
        }
        Some(why) => Err(refused_run(rt, dir, engine, why)),
    }
}

/// Says that the show of a folder is ready, runs it with a watch that looks on, and prints how the run ended.
#[tactic(auto, using(crate::proofs::ServeLemmas::has_served))]
pub(crate) fn serve_watched<'a, R: Clock + Eprint, W: Write, V: Watch<LoggedWire<UdpWire<'a>>>>(
    rt: &'a R,
    alloc: Global,
    dir: &str,
    mut engine: Engine<FileDisk>,
    socket: &'a UdpSocket,
    port: u16,
    turns: u64,
    watch: &mut V,
    writer: &mut W,
) -> Result<(), ProgramFault>
    ensures served { OnOk result (HasServed turns engine (W.contents writer.old) (W.contents writer.new)) }
{
    match serve_at(rt, alloc, dir, &mut engine, socket, port, turns, watch) {
        Ok(ended) => finish(rt, alloc, dir, engine, ended, writer),
        Err(fault) => {
            drop(engine);
            Err(fault)
        }
    }
}

/// Says that the show of a folder is ready, runs it as `serve_on` does, and prints how the run ended: how many inputs
/// were taken, and how many sends the system refused. The error says why the run was not carried on.
pub fn serve_engine<R: Clock + Eprint, W: Write>(
    rt: &R,
    alloc: Global,
    dir: &str,
    engine: Engine<FileDisk>,
    socket: &UdpSocket,
    port: u16,
    turns: u64,
    writer: &mut W,
) -> Result<(), ProgramFault>
    ensures served { OnOk result (HasServed turns engine (W.contents writer.old) (W.contents writer.new)) }
{
    let mut log = EveningLog::new(rt, alloc);
    serve_watched(
        rt, alloc, dir, engine, socket, port, turns, &mut log, writer,
    )
}
