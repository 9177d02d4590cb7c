//! The calls of the reader and the writer.
ghost use Rattle.std.specs.Prelude.{◌≡◌, ◌++◌, None, OnOk, IfSome};
ghost use Rattle.std.specs.Io.KnownBytes.{Appends, Keeps};
ghost use Rattle.cue_script.specs.Streams.{failed_calls, last_failure, Tells};

use crate::ending::StreamFailure;
use std::io::{self, Read, Write};

/// Calls the reader and the writer, counts the calls that fail, and keeps what the last of them failed as.
/// Nothing else changes this, so that contracts can say when a failure is one of the reader or the writer.
#[derive(Debug, Drop)]
pub struct Streams {
    // It may stand at the last number.
    failures: u64,
    last: Option<StreamFailure>,
}

impl Streams {
    /// No call was made.
    pub fn new() -> Streams
        ensures none { (failed_calls result ≡ 0) × (last_failure result ≡ None) }
    {
        Streams {
            failures: 0,
            last: None,
        }
    }

    // What a call answered.
    fn counted(&mut self, answer: io::Result<()>) -> io::Result<()>
        ensures same { result ≡ answer }
        ensures told { Tells result self.old self.new }
    {
        match answer {
            Ok(()) => Ok(()),
            Err(error) => {
                self.failures = self.failures.saturating_add(1);
                self.last = Some(StreamFailure::of(&error));
                Err(error)
            }
        }
    }

    /// Reads all that is left.
    pub fn read_to_end<R: Read>(&mut self, reader: &mut R, bytes: &mut Vec<u8>) -> io::Result<()>
        ensures bytes { OnOk result (IfSome (R.remaining reader.old)
            (λ rest. bytes.new.items ≡ bytes.old.items ++ rest)) }
        ensures told { Tells result self.old self.new }
    {
        let answer = match reader.read_to_end(bytes) {
            Ok(_) => Ok(()),
            Err(error) => Err(error),
        };
        self.counted(answer)
    }

    /// Writes all of the bytes.
    pub fn write_all<W: Write>(&mut self, writer: &mut W, bytes: &[u8]) -> io::Result<()>
        ensures bytes { OnOk result (Appends (W.contents writer.old) (W.contents writer.new) bytes.now) }
        ensures told { Tells result self.old self.new }
    {
        self.counted(writer.write_all(bytes))
    }

    /// Hands on what is written.
    pub fn flush<W: Write>(&mut self, writer: &mut W) -> io::Result<()>
        ensures bytes { Keeps (W.contents writer.old) (W.contents writer.new) }
        ensures told { Tells result self.old self.new }
    {
        self.counted(writer.flush())
    }
}
