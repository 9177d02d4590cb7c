//! Scripts: lines of text that stand for datagrams, ticks and power losses, and what is sent for them.
ghost use Rattle.std.specs.Prelude.{◌≡◌, ◌≢◌, ◌≤◌, IfOk, IfErr, OnOk, IfSome, MatchOption, []};
ghost use Rattle.std.specs.Prelude.{length, ◌<◌, ◌-◌, ◌^◌};
ghost use Rattle.std.specs.Io.KnownBytes.{Appends};
ghost use Rattle.cue_core.specs.State.{empty_state};
ghost use Rattle.cue_script.specs.Endings.{failure_of};
ghost use Rattle.cue_script.specs.Script.{HasRun, Wrote};
ghost use Rattle.cue_script.specs.Streams.{FailedAs, HasCause};

use crate::ending::{Ending, Failure, StreamFailure};
use crate::play::play_lines;
use crate::stream::Streams;
use cue_disk::MemDisk;
use cue_engine::Engine;
use std::alloc::Global;
use std::io::{self, Read, Write};

/// The longest script, in bytes.
pub const MAX_SCRIPT: u64 = 1_048_576;

// All that a reader has, or `None` if it is longer than the limit. No more than a byte beyond the limit is read.
fn read_at_most<R: Read>(
    alloc: Global,
    streams: &mut Streams,
    reader: &mut R,
    limit: u64,
) -> io::Result<Option<Vec<u8>>>
    requires { limit < 2 ^ 64 - 1 }
    ensures read { IfOk result (λ found. IfSome (R.remaining reader.old)
        (λ text. MatchOption found (limit < length text)
        (λ bytes. (bytes.items ≡ text) × (length text ≤ limit)))) }
    ensures limit { IfOk result (λ found. IfSome found (λ bytes. length bytes.items ≤ limit)) }
    ensures no_failure { OnOk result (streams.new ≡ streams.old) }
    ensures cause { IfErr result (λ error. FailedAs (failure_of error) streams.old streams.new) }
{
    let mut bytes = Vec::new(alloc);
    streams.read_to_end(&mut reader.take(limit + 1), &mut bytes)?;
    if bytes.len() as u64 > limit {
        Ok(None)
    } else {
        Ok(Some(bytes))
    }
}

// Runs a text on two new disks in memory.
fn play_text<W: Write>(alloc: Global, text: &[u8], streams: &mut Streams, writer: &mut W) -> Ending
    requires { length text.now ≤ MAX_SCRIPT }
    ensures wrote { Wrote result empty_state text.now [] (W.contents writer.old) (W.contents writer.new) }
    ensures cause { HasCause result streams.old streams.new }
{
    match Engine::form(alloc, MemDisk::new(alloc), MemDisk::new(alloc)) {
        Ok(engine) => play_lines(alloc, engine, text, streams, writer),
        Err((fault, _, _)) => Ending::Failed(Failure::Store(fault)),
    }
}

// Runs all that a reader has. The last line of the output is left to the caller.
fn play_all<R: Read, W: Write>(
    alloc: Global,
    streams: &mut Streams,
    reader: &mut R,
    writer: &mut W,
) -> Ending
    ensures wrote { IfSome (R.remaining reader.old)
        (λ text. Wrote result empty_state text [] (W.contents writer.old) (W.contents writer.new)) }
    ensures cause { HasCause result streams.old streams.new }
{
    match read_at_most(alloc, streams, reader, MAX_SCRIPT) {
        Ok(Some(text)) => play_text(alloc, text.as_slice(), streams, writer),
        Ok(None) => Ending::BadInput,
        Err(error) => Ending::Stopped(StreamFailure::of(&error)),
    }
}

// Writes the last line, and hands on what is written.
fn write_last<W: Write>(streams: &mut Streams, writer: &mut W, line: &[u8]) -> io::Result<()>
    ensures { OnOk result (Appends (W.contents writer.old) (W.contents writer.new) line.now) }
{
    streams.write_all(writer, line)?;
    streams.flush(writer)
}

/// Runs a script on two disks in memory that it has formed, and answers its exit status. What it writes is known for a
/// reader and a writer whose bytes are. Status 3 comes if memory, a disk, the reader or the writer failed.
pub fn script<R: Read, W: Write>(alloc: Global, reader: &mut R, writer: &mut W) -> u8
    ensures ran { IfSome (R.remaining reader.old)
        (λ text. HasRun empty_state text result (W.contents writer.old) (W.contents writer.new)) }
    ensures statuses { (result ≤ 3) × (result ≢ 2) }
{
    let mut streams = Streams::new();
    let ending = play_all(alloc, &mut streams, reader, writer);
    match write_last(&mut streams, writer, ending.line()) {
        Ok(()) => ending.status(),
        Err(error) => {
            let stopped = Ending::Stopped(StreamFailure::of(&error));
            let _ = write_last(&mut streams, writer, stopped.line());
            stopped.status()
        }
    }
}
