//! Running a script line by line.
ghost use Rattle.std.specs.Prelude.{◌≡◌, ◌≤◌, ◌<◌, ◌+◌, ◌^◌, [], length, false, true, IfOk, IfErr, OnOk};
ghost use Rattle.std.specs.Io.KnownBytes.{Appends};
ghost use Rattle.cue_core.specs.Steps.{after_events};
ghost use Rattle.cue_outbox.specs.Sending.{datagrams};
ghost use Rattle.cue_engine.specs.Inputs.{input_view};
ghost use Rattle.cue_engine.specs.Runs.{took, recovered, given_at};
ghost use Rattle.cue_engine.specs.Observed.{state_of, queue_of, keeper_of};
ghost use Rattle.cue_disk.specs.Memory.{memory_bytes};
ghost use Rattle.cue_keeper.specs.Stands.{Stands};
ghost use Rattle.cue_keeper.specs.Observed.{is_broken, generation_of};
ghost use Rattle.cue_script.specs.Endings.{can_come};
ghost use Rattle.cue_script.specs.ScriptViews.{line_view};
ghost use Rattle.cue_script.specs.Playing.{IsReady, IsAfter, CanTurnOver, TurnedOnce, ReadsAt};
ghost use Rattle.cue_script.specs.Playing.{Goes, EndsAt, EndsUnheard};
ghost use Rattle.cue_script.specs.Script.{printed_lines, Wrote};
ghost use Rattle.cue_script.specs.Streams.{HasCause};

use crate::ending::{Ending, Failure, StreamFailure};
use crate::entry::MAX_SCRIPT;
use crate::line::{ScriptLine, first_line, read_line};
use crate::print::print_all;
use crate::stream::Streams;
use cue_disk::MemDisk;
use cue_engine::{Engine, Input, MemWire};
use cue_keeper::StoreFault;
use std::alloc::{AllocError, Global};
use std::io::Write;

// Drops the engine of a line that is not carried out.
fn refuse(engine: Engine<MemDisk>, failure: Failure) -> Result<Engine<MemDisk>, Failure>
    ensures { result ≡ Err failure }
{
    drop(engine);
    Err(failure)
}

// Drops the engine of a script that ends.
fn end_with(engine: Engine<MemDisk>, ending: Ending) -> Result<Engine<MemDisk>, Ending>
    ensures { result ≡ Err ending }
{
    drop(engine);
    Err(ending)
}

// Takes what came at a time.
fn take_input(
    mut engine: Engine<MemDisk>,
    now: u64,
    input: Input<'_>,
) -> Result<Engine<MemDisk>, Failure>
    requires ready { IsReady engine }
    requires generation { CanTurnOver engine }
    ensures after { IfOk result (λ next. IsAfter (state_of engine) (took now (input_view input.entry)) next) }
    ensures turned { IfOk result (λ next. TurnedOnce engine next) }
    ensures failure { IfErr result (λ failure. can_come failure ≡ true) }
{
    match engine.take(now, input) {
        Ok(_) => Ok(engine),
        Err(fault) => refuse(engine, Failure::from(fault)),
    }
}

// What power loss leaves of the two disks: bytes that stand for the engine's state.
fn lose_power(engine: Engine<MemDisk>) -> Result<(MemDisk, MemDisk), AllocError>
    requires { IsReady engine }
    ensures stand { IfOk result (λ left. Stands (memory_bytes left.0) (memory_bytes left.1) (state_of engine)) }
    ensures reads { IfOk result
        (λ left. ReadsAt (generation_of (keeper_of engine)) (memory_bytes left.0) (memory_bytes left.1)) }
{
    let (first, second) = engine.close();
    let left = first.crash(0, &[])?;
    let other = second.crash(0, &[])?;
    Ok((left, other))
}

// Loses power, and recovers from what that leaves.
fn recover_from_loss(alloc: Global, engine: Engine<MemDisk>) -> Result<Engine<MemDisk>, Failure>
    requires ready { IsReady engine }
    requires generation { CanTurnOver engine }
    ensures after { IfOk result (λ next. IsAfter (state_of engine) recovered next) }
    ensures turned { IfOk result (λ next. TurnedOnce engine next) }
    ensures failure { IfErr result (λ failure. can_come failure ≡ true) }
{
    match lose_power(engine) {
        Ok((first, second)) => match Engine::recover(alloc, first, second) {
            Ok(next) => Ok(next),
            Err((fault, _, _)) => Err(Failure::Store(fault)),
        },
        Err(AllocError) => Err(Failure::Store(StoreFault::Memory)),
    }
}

// Carries out what a line stands for.
fn carry_out(
    alloc: Global,
    engine: Engine<MemDisk>,
    line: &ScriptLine,
) -> Result<Engine<MemDisk>, Failure>
    requires ready { IsReady engine }
    requires generation { CanTurnOver engine }
    ensures after { IfOk result (λ next. IsAfter (state_of engine) (line_view line.now) next) }
    ensures turned { IfOk result (λ next. TurnedOnce engine next) }
    ensures failure { IfErr result (λ failure. can_come failure ≡ true) }
{
    match line {
        ScriptLine::Datagram(arrival) => {
            let input = Input::Datagram {
                from: arrival.from,
                bytes: arrival.bytes.as_slice(),
            };
            take_input(engine, arrival.now, input)
        }
        ScriptLine::Tick(now) => take_input(engine, *now, Input::Tick),
        ScriptLine::PowerLoss => recover_from_loss(alloc, engine),
    }
}

// Hands over what is owed, and gives its lines.
fn owed_text(alloc: Global, engine: &mut Engine<MemDisk>) -> Result<Vec<u8>, AllocError>
    ensures keeper { keeper_of engine.new ≡ keeper_of engine.old }
    ensures emptied { queue_of engine.new ≡ [] }
    ensures text { IfOk result (λ text. text.items ≡ printed_lines (queue_of engine.old)) }
{
    let mut wire = MemWire::new(alloc);
    engine.hand_out(&mut wire);
    match wire.sent() {
        Some(all) => print_all(alloc, all),
        None => Err(AllocError),
    }
}

// Hands over what is owed, and prints it.
fn print_owed<W: Write>(
    alloc: Global,
    mut engine: Engine<MemDisk>,
    streams: &mut Streams,
    writer: &mut W,
) -> Result<Engine<MemDisk>, Ending>
    requires works { is_broken (keeper_of engine) ≡ false }
    ensures ready { IfOk result (λ next. IsReady next) }
    ensures state { IfOk result (λ next. state_of next ≡ state_of engine) }
    ensures generation { IfOk result
        (λ next. generation_of (keeper_of next) ≡ generation_of (keeper_of engine)) }
    ensures wrote { OnOk result
        (Appends (W.contents writer.old) (W.contents writer.new) (printed_lines (queue_of engine))) }
    ensures ends { IfErr result (λ ending. EndsUnheard ending (W.contents writer.old) (W.contents writer.new)) }
    ensures no_failure { OnOk result (streams.new ≡ streams.old) }
    ensures cause { IfErr result (λ ending. HasCause ending streams.old streams.new) }
{
    match owed_text(alloc, &mut engine) {
        Ok(text) => match streams.write_all(writer, &text) {
            Ok(()) => Ok(engine),
            Err(error) => end_with(engine, Ending::Stopped(StreamFailure::of(&error))),
        },
        Err(AllocError) => end_with(engine, Ending::NO_MEMORY),
    }
}

// Runs a line, and prints what is sent for it.
fn run_line<W: Write>(
    alloc: Global,
    engine: Engine<MemDisk>,
    line: &ScriptLine,
    streams: &mut Streams,
    writer: &mut W,
) -> Result<Engine<MemDisk>, Ending>
    requires ready { IsReady engine }
    requires generation { CanTurnOver engine }
    ensures ready { IfOk result (λ next. IsReady next) }
    ensures turned { IfOk result (λ next. TurnedOnce engine next) }
    ensures state { IfOk result
        (λ next. state_of next ≡ after_events (state_of engine)
        (given_at (state_of engine) (line_view line.now)).batch) }
    ensures wrote { OnOk result (Appends (W.contents writer.old) (W.contents writer.new)
        (printed_lines (datagrams (given_at (state_of engine) (line_view line.now)).sends))) }
    ensures ends { IfErr result (λ ending. EndsUnheard ending (W.contents writer.old) (W.contents writer.new)) }
    ensures no_failure { OnOk result (streams.new ≡ streams.old) }
    ensures cause { IfErr result (λ ending. HasCause ending streams.old streams.new) }
{
    match carry_out(alloc, engine, line) {
        Ok(next) => print_owed(alloc, next, streams, writer),
        Err(failure) => Err(Ending::Failed(failure)),
    }
}

// Reads a line and runs it. If it ends the script, nothing is printed.
fn play_line<W: Write>(
    alloc: Global,
    engine: Engine<MemDisk>,
    line: &[u8],
    streams: &mut Streams,
    writer: &mut W,
) -> Result<Engine<MemDisk>, Ending>
    requires ready { IsReady engine }
    requires generation { CanTurnOver engine }
    ensures ready { IfOk result (λ next. IsReady next) }
    ensures turned { IfOk result (λ next. TurnedOnce engine next) }
    ensures goes { IfOk result
        (λ next. Goes line.now (state_of engine) (state_of next) (W.contents writer.old) (W.contents writer.new)) }
    ensures ends { IfErr result (λ ending. EndsAt ending line.now (W.contents writer.old) (W.contents writer.new)) }
    ensures no_failure { OnOk result (streams.new ≡ streams.old) }
    ensures cause { IfErr result (λ ending. HasCause ending streams.old streams.new) }
{
    match read_line(alloc, line) {
        Ok(Some(told)) => run_line(alloc, engine, &told, streams, writer),
        Ok(None) => end_with(engine, Ending::BadLine),
        Err(AllocError) => end_with(engine, Ending::NO_MEMORY),
    }
}

/// Runs the lines of a script, and answers how it ends. The last line of the output is left to the caller.
pub fn play_lines<W: Write>(
    alloc: Global,
    engine: Engine<MemDisk>,
    text: &[u8],
    streams: &mut Streams,
    writer: &mut W,
) -> Ending
    requires ready { IsReady engine }
    requires short { length text.now ≤ MAX_SCRIPT }
    // Each line has a byte at least, and turns over at most once.
    requires generations { generation_of (keeper_of engine) + length text.now < 2 ^ 64 }
    ensures wrote { Wrote result (state_of engine) text.now [] (W.contents writer.old) (W.contents writer.new) }
    ensures cause { HasCause result streams.old streams.new }
{
    let mut engine = engine;
    let mut rest = text;
    while !rest.is_empty() {
        let (line, behind) = first_line(rest);
        match play_line(alloc, engine, line, streams, writer) {
            Ok(next) => {
                engine = next;
                rest = behind;
            }
            Err(ending) => return ending,
        }
    }
    drop(engine);
    Ending::Done
}
