// Offering what a source gives, one input after the other.
ghost use Rattle.std.specs.Prelude.{◌≡◌, ◌≤◌, ◌<◌, ◌+◌, length, vec_len, vec_capacity};
ghost use Rattle.cue_engine.specs.Inputs.{input_view};
ghost use Rattle.cue_engine.specs.Observed.{HasRoomForAll};
ghost use Rattle.cue_run.specs.Grouping.{WhicheverGave, OfferedOne, OfferedNext, OfferedFirst};
ghost use Rattle.cue_run.specs.Grouping.{OfferedGroup, Gathered, answers_beside};

use crate::turns::RunFault;
use cue_disk::Disk;
use cue_engine::{Engine, Input, Source, Turn, Waiting};

/// Why no round follows.
#[derive(Clone, Copy)]
pub(crate) enum Stop {
    /// The source ended.
    Ended,
    Fault(RunFault),
}

// The first input of a group.
#[derive(Clone, Copy)]
enum First {
    /// There is none: the source ended.
    End,
    /// A tick is a group of its own.
    Tick,
    /// A datagram that changes nothing is a group of its own, too: it has no write to share.
    Datagram { changes: bool },
}

// Offers an input after those before it, and notes how many datagrams are sent up to it. Answers whether it changes
// something.
fn offer_one<D: Disk>(
    engine: &mut Engine<D>,
    ends: &mut Vec<usize>,
    now: u64,
    input: Input<'_>,
) -> Result<bool, RunFault>
    requires room { vec_len ends.old < vec_capacity ends.old }
    ensures offered { WhicheverGave (now, input_view input.entry) (λ size left left_then. OfferedOne size
        (vec_len ends.old) (vec_len ends.new) result engine.old engine.new left left_then) }
    ensures capacity { vec_capacity ends.new ≡ vec_capacity ends.old }
{
    match engine.offer(now, input) {
        Ok(counts) => {
            ends.push_reserved(engine.offered_sends());
            Ok(counts.made != 0)
        }
        Err(fault) => Err(RunFault::Engine(fault)),
    }
}

// Offers a datagram that is there already, if one is; answers whether one was.
fn offer_waiting<D: Disk, S: Source>(
    engine: &mut Engine<D>,
    source: &mut S,
    buffer: &mut [u8],
    ends: &mut Vec<usize>,
) -> Result<bool, RunFault>
    requires room { vec_len ends.old < vec_capacity ends.old }
    ensures offered { OfferedNext (length buffer.old) (vec_len ends.old) (vec_len ends.new) result
        engine.old engine.new (S.left source.old) (S.left source.new) }
    ensures capacity { vec_capacity ends.new ≡ vec_capacity ends.old }
{
    match source.waiting(buffer) {
        Ok(Some(Waiting { now, from, n })) => {
            let bytes = &buffer[..n];
            offer_one(engine, ends, now, Input::Datagram { from, bytes })?;
            Ok(true)
        }
        Ok(None) => Ok(false),
        Err(_) => Err(RunFault::Source),
    }
}

// Offers a datagram that waits, unless the live area may lack room for it; answers whether one was offered.
fn offer_beside<D: Disk, S: Source>(
    engine: &mut Engine<D>,
    source: &mut S,
    buffer: &mut [u8],
    ends: &mut Vec<usize>,
) -> Result<bool, RunFault>
    requires room { vec_len ends.old < vec_capacity ends.old }
    ensures offered { OfferedNext (length buffer.old) (vec_len ends.old) (vec_len ends.new) result
        engine.old engine.new (S.left source.old) (S.left source.new) }
    ensures fits { HasRoomForAll engine.old → HasRoomForAll engine.new }
    ensures capacity { vec_capacity ends.new ≡ vec_capacity ends.old }
{
    if !engine.has_room() {
        return Ok(false);
    }
    offer_waiting(engine, source, buffer, ends)
}

// Waits for the first input of a group, and offers it.
fn offer_first<D: Disk, S: Source>(
    engine: &mut Engine<D>,
    source: &mut S,
    buffer: &mut [u8],
    ends: &mut Vec<usize>,
) -> Result<First, RunFault>
    requires room { vec_len ends.old < vec_capacity ends.old }
    ensures offered { OfferedFirst (length buffer.old) (vec_len ends.old) (vec_len ends.new) result
        engine.old engine.new (S.left source.old) (S.left source.new) }
    ensures capacity { vec_capacity ends.new ≡ vec_capacity ends.old }
{
    match source.next(buffer) {
        Ok(Turn::End) => Ok(First::End),
        Ok(Turn::Tick { now }) => {
            offer_one(engine, ends, now, Input::Tick)?;
            Ok(First::Tick)
        }
        Ok(Turn::Datagram { now, from, n }) => {
            let bytes = &buffer[..n];
            let changes = offer_one(engine, ends, now, Input::Datagram { from, bytes })?;
            Ok(First::Datagram { changes })
        }
        Err(_) => Err(RunFault::Source),
    }
}

// Offers what waits after the first input of a group, until it has so many, until nothing waits, or until the live area
// may lack room for one more. Answers the fault that ended it, if one did.
fn gather<D: Disk, S: Source>(
    engine: &mut Engine<D>,
    source: &mut S,
    buffer: &mut [u8],
    ends: &mut Vec<usize>,
    most: u64,
) -> Option<RunFault>
    requires one { vec_len ends.old ≡ 1 }
    requires some { 1 ≤ most }
    requires room { most ≤ vec_capacity ends.old }
    ensures gathered { Gathered (length buffer.old) (vec_len ends.old) (vec_len ends.new) result
        engine.old engine.new (S.left source.old) (S.left source.new) }
    // What is offered in the end can be committed together.
    ensures fits { HasRoomForAll engine.old → HasRoomForAll engine.new }
    ensures at_most { vec_len ends.new + answers_beside result ≤ most }
    ensures capacity { vec_capacity ends.new ≡ vec_capacity ends.old }
{
    for count in 1..most {
        match offer_beside(engine, source, buffer, ends) {
            Ok(true) => {}
            Ok(false) => return None,
            Err(fault) => return Some(fault),
        }
    }
    None
}

/// Offers one group: the first input that comes, and what waits after it, so many at most. Answers the fault that ended
/// the group, if one did; if no input was offered, why not.
pub(crate) fn offer_group<D: Disk, S: Source>(
    engine: &mut Engine<D>,
    source: &mut S,
    buffer: &mut [u8],
    ends: &mut Vec<usize>,
    room: u64,
) -> Result<Option<RunFault>, Stop>
    requires none { vec_len ends.old ≡ 0 }
    requires some { 1 ≤ room }
    requires room { room ≤ vec_capacity ends.old }
    ensures offered { OfferedGroup (length buffer.old) room (vec_len ends.new) result engine.old engine.new
        (S.left source.old) (S.left source.new) }
    ensures capacity { vec_capacity ends.new ≡ vec_capacity ends.old }
{
    match offer_first(engine, source, buffer, ends) {
        Ok(First::End) => Err(Stop::Ended),
        Ok(First::Tick | First::Datagram { changes: false }) => Ok(None),
        Ok(First::Datagram { changes: true }) => Ok(gather(engine, source, buffer, ends, room)),
        Err(fault) => Err(Stop::Fault(fault)),
    }
}
