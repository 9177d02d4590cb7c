//! The board: what an operator sees of a show. Lines of text that are made of one view and the names of a show file,
//! and of nothing else.
ghost use Rattle.std.specs.Prelude.{◌≡◌, ◌+◌, ◌-◌, ◌++◌, [], ◌∷◌, IfOk, OnOk, Some, ℕ, codes, length, map};
ghost use Rattle.std.specs.Prelude.{string_bytes};
ghost use Rattle.cue_board.specs.Board as board;
ghost use Rattle.cue_board.specs.Board.{Begin, said_of};
ghost use Rattle.cue_columns.specs.Columns.{AreFit};

use crate::brief::push_live_brief;
use crate::claims::{count_answers_said, push_answers_say};
use crate::ends::{push_last, room_beside_last};
use crate::faults::{live_of, words_of};
use crate::line::{BoardLine, texts};
use crate::live::push_live;
use crate::names::Names;
use crate::network::{claim_lines, heard_lines};
use crate::owed::{owed_takes, push_owed};
use crate::stack::{SHOWN, cues_within, push_stack};
use crate::times::seconds;
use cue_view::view::{Alarm, LiveAttempt, View};
use std::alloc::{AllocError, Global};

/// For how many lines of claims the stack gives way.
const CLAIMED: usize = 3;

// Whether the alarm has a line of its own. A failure has one while its attempt is live: after that the line of the
// attempt that ended last tells it.
fn is_called(live: &[LiveAttempt], alarm: Alarm) -> bool
    ensures { result ≡ board.is_called live.now alarm }
{
    match alarm {
        Alarm::Failed(seq) => live_of(seq, live).is_some(),
        _ => true,
    }
}

// The loudest alarm that has a line.
#[tactic(auto, unfolding(crate::specs::Board::loudest))]
fn loudest(view: &View) -> Option<Alarm>
    ensures { result ≡ board.loudest view.now }
{
    view.alarms
        .iter()
        .copied()
        .find(|alarm| is_called(&view.live, *alarm))
}

// Puts the line of an alarm after the lines.
fn push_called(
    alloc: Global,
    lines: &mut Vec<BoardLine>,
    view: &View,
    alarm: Alarm,
    port: u16,
) -> Result<(), AllocError>
    ensures { OnOk result (map said_of lines.new.items
        ≡ map said_of lines.old.items ++ ((codes "ALARM  " ++ board.words_of port view.now alarm) ∷ [])) }
{
    let words = words_of(alloc, view, alarm, port)?;
    let words = words.as_str();
    let said = format!(in alloc; "ALARM  {words}")?;
    lines.push(BoardLine::bare(alloc, said))?;
    Ok(())
}

// Puts what devices say of an alarm after the lines: why those aborted that failed in its attempt.
fn push_alarm_says(
    alloc: Global,
    lines: &mut Vec<BoardLine>,
    view: &View,
    alarm: Alarm,
) -> Result<(), AllocError>
    ensures { OnOk result
        (map said_of lines.new.items ≡ map said_of lines.old.items ++ board.alarm_says view.now alarm) }
{
    if let Alarm::Failed(seq) = alarm {
        if let Some(attempt) = live_of(seq, &view.live) {
            let answers = attempt.devices.as_slice();
            push_answers_say(alloc, lines, &view.network, attempt.seq, answers)?;
        }
    }
    Ok(())
}

// How many lines that takes.
fn says_takes(view: &View, alarm: Alarm) -> usize
    ensures { result ≡ board.says_takes view.now alarm }
{
    match alarm {
        Alarm::Failed(seq) => match live_of(seq, &view.live) {
            Some(attempt) => {
                count_answers_said(&view.network, attempt.seq, attempt.devices.as_slice())
            }
            None => 0,
        },
        _ => 0,
    }
}

// Puts the line of an alarm after the lines, what moves once it is over, and what devices say of it.
fn push_whole(
    alloc: Global,
    lines: &mut Vec<BoardLine>,
    view: &View,
    alarm: Alarm,
    port: u16,
) -> Result<(), AllocError>
    ensures { OnOk result
        (map said_of lines.new.items ≡ map said_of lines.old.items ++ board.called port view.now (Some alarm)) }
{
    push_called(alloc, lines, view, alarm, port)?;
    push_owed(alloc, lines, &alarm, &view.live)?;
    push_alarm_says(alloc, lines, view, alarm)
}

// Puts the line of the loudest alarm after the lines, if there is one, with what belongs to it.
fn push_alarm(
    alloc: Global,
    lines: &mut Vec<BoardLine>,
    view: &View,
    port: u16,
) -> Result<(), AllocError>
    ensures { OnOk result
        (map said_of lines.new.items ≡ map said_of lines.old.items ++ board.alarm_said port view.now) }
{
    if let Some(alarm) = loudest(view) {
        push_whole(alloc, lines, view, alarm, port)?;
    }
    Ok(())
}

// That it is silent for so long.
#[tactic(auto, unfolding(crate::specs::Board::silent_for))]
fn silent_for(alloc: Global, who: &str, silent: &str) -> Result<String, AllocError>
    ensures { IfOk result (λ text. string_bytes text ≡ board.silent_for who.now silent.now) }
{
    Ok(format!(in alloc; "; {who} silent for {silent} s")?)
}

// For how long it is silent, if it is late: `serve` or the relay.
fn late_said(alloc: Global, who: &str, late: Option<u64>) -> Result<String, AllocError>
    ensures { IfOk result (λ text. string_bytes text ≡ board.late_said who.now late) }
{
    match late {
        Some(millis) => {
            let silent = seconds(alloc, millis)?;
            let text = silent_for(alloc, who, silent.as_str())?;
            Ok(text)
        }
        None => Ok(String::new(alloc)),
    }
}

// How old the copy is that is shown.
fn age_said(alloc: Global, view: &View) -> Result<String, AllocError>
    ensures { IfOk result (λ text. string_bytes text ≡ board.age_said view.now.at view.now.read) }
{
    match view.read {
        Some(read) => {
            let age = seconds(alloc, view.at.saturating_sub(read))?;
            let age = age.as_str();
            Ok(format!(in alloc; "READ   {age} s ago")?)
        }
        None => String::from_str(alloc, "READ   nothing yet"),
    }
}

// The same, and which of controller and relay is late.
fn read_said(alloc: Global, view: &View) -> Result<String, AllocError>
    ensures { IfOk result (λ text. string_bytes text ≡ board.read_said view.now) }
{
    let age = age_said(alloc, view)?;
    let serve = late_said(alloc, "serve", view.serve_late())?;
    let relay = late_said(alloc, "relay", view.relay_late())?;
    let (age, serve, relay) = (age.as_str(), serve.as_str(), relay.as_str());
    Ok(format!(in alloc; "{age}{serve}{relay}")?)
}

// Puts the attempt that ended last and the age after the lines.
fn push_ends(
    alloc: Global,
    lines: &mut Vec<BoardLine>,
    view: &View,
    names: &Names<'_>,
) -> Result<(), AllocError>
    ensures { OnOk result
        (map said_of lines.new.items ≡ map said_of lines.old.items ++ board.ends_said names.now view.now) }
{
    push_last(alloc, lines, &view.last, names, &view.network)?;
    let read = read_said(alloc, view)?;
    lines.push(BoardLine::bare(alloc, read))?;
    Ok(())
}

// The lines of the board with so many cues.
fn lines_with(
    alloc: Global,
    view: &View,
    names: &Names<'_>,
    shown: usize,
) -> Result<Vec<BoardLine>, AllocError>
    ensures { IfOk result (λ lines. map said_of lines.items ≡ board.board_with shown names.now view.now) }
{
    let mut lines = Vec::new(alloc);
    push_alarm(alloc, &mut lines, view, names.port)?;
    push_stack(alloc, &mut lines, view, names, shown)?;
    push_live(alloc, &mut lines, &view.live, names, view)?;
    push_ends(alloc, &mut lines, view, names)?;
    Ok(lines)
}

// The lines of the board without cues, with a line for each answer.
fn brief_lines(alloc: Global, view: &View, names: &Names<'_>) -> Result<Vec<BoardLine>, AllocError>
    ensures { IfOk result (λ lines. map said_of lines.items ≡ board.board_brief names.now view.now) }
{
    let mut lines = Vec::new(alloc);
    push_alarm(alloc, &mut lines, view, names.port)?;
    push_stack(alloc, &mut lines, view, names, 0)?;
    push_live_brief(alloc, &mut lines, &view.live, view)?;
    push_ends(alloc, &mut lines, view, names)?;
    Ok(lines)
}

// The lines of the board with so many cues at most; without cues the devices share lines.
fn lines_of(
    alloc: Global,
    view: &View,
    names: &Names<'_>,
    shown: usize,
) -> Result<Vec<BoardLine>, AllocError>
    ensures { IfOk result (λ lines. map said_of lines.items ≡ board.board_said shown names.now view.now) }
{
    if shown == 0 {
        brief_lines(alloc, view, names)
    } else {
        lines_with(alloc, view, names, shown)
    }
}

// What the alarm and what belongs to it leave of so many lines.
fn room_beside_alarm(room: usize, view: &View) -> usize
    ensures { result ≡ room - board.alarm_takes view.now }
{
    match loudest(view) {
        Some(alarm) => room
            .saturating_sub(1)
            .saturating_sub(owed_takes(&alarm, &view.live))
            .saturating_sub(says_takes(view, alarm)),
        None => room,
    }
}

// How many cues are shown, if what a relay says takes so many lines, and what devices say of themselves so many.
fn cues_in(room: Option<usize>, view: &View, heard: usize, claims: usize) -> usize
    ensures { result ≡ board.cues_in room view.now heard claims }
{
    match room {
        Some(room) => {
            let left = room.saturating_sub(heard).saturating_sub(claims);
            let left = room_beside_alarm(left, view);
            cues_within(
                room_beside_last(left, &view.last, &view.network),
                &view.live,
            )
        }
        None => SHOWN,
    }
}

// How many cues are shown beside so many lines of what a relay says, and of claims: cues leave room for a few of these,
// but not the last cue.
fn cues_beside(room: Option<usize>, view: &View, heard: usize, claims: usize) -> usize
    ensures { result ≡ board.cues_beside room view.now heard claims }
{
    let beside = cues_in(room, view, heard, claims.min(CLAIMED));
    if beside == 0 {
        cues_in(room, view, heard, 0)
    } else {
        beside
    }
}

// What a relay says, and after it as many lines of claims as have room beside these and so many others.
#[tactic(auto, using(crate::proofs::RoomLemmas::are_fit_few))]
fn with_claims(
    mut heard: Vec<String>,
    mut claims: Vec<String>,
    room: Option<usize>,
    lines: usize,
) -> Result<Vec<String>, AllocError>
    requires heard { AreFit heard.items }
    requires claims { AreFit claims.items }
    ensures fit { IfOk result (λ all. AreFit all.items) }
    ensures count { IfOk result (λ all. length all.items
        ≡ length heard.items + board.claims_within room lines (length heard.items) (length claims.items)) }
{
    if let Some(room) = room {
        claims.truncate(room.saturating_sub(lines).saturating_sub(heard.len()));
    }
    heard.append(&mut claims)?;
    Ok(heard)
}

// The lines as they are shown, and after them what a relay says.
#[tactic(auto, using(crate::proofs::BoardLemmas::begin_drawn, crate::proofs::RoomLemmas::count_drawn))]
fn drawn(
    alloc: Global,
    lines: &[BoardLine],
    mut heard: Vec<String>,
) -> Result<Vec<String>, AllocError>
    requires { AreFit heard.items }
    ensures said { IfOk result (λ all. Begin (map said_of lines.now) (map string_bytes all.items)) }
    ensures fit { IfOk result (λ all. AreFit all.items) }
    ensures count { IfOk result (λ all. length all.items ≡ length lines.now + length heard.items) }
{
    let mut all = texts(alloc, lines)?;
    all.append(&mut heard)?;
    Ok(all)
}

/// The lines of the board, each of at most `COLUMNS` columns, with nothing in them that a terminal might obey: the
/// loudest alarm, the next cue with its note, the stack around the place, each live attempt with its devices, how the
/// last one ended, the age of what is shown, what a relay says, and what devices told it of themselves. What does not
/// fit into a line is cut off at its end.
///
/// `room` is how many lines there are; none: as many as it takes. The stack has fewer cues if other lines need the
/// room; of what devices told there are three lines then, and none in the place of the last cue. If no cue has room any
/// more, the devices of an attempt that have answered the same share a line, by their numbers; a board that shows a cue
/// has no more than `room` lines.
#[tactic(auto, using(crate::proofs::RoomLemmas::has_room))]
pub fn board_lines(
    alloc: Global,
    view: &View,
    names: &Names<'_>,
    room: Option<usize>,
) -> Result<Vec<String>, AllocError>
    ensures said { IfOk result (λ lines. (shown : ℕ)
        × Begin (board.board_said shown names.now view.now) (map string_bytes lines.items)) }
    ensures fit { IfOk result (λ lines. AreFit lines.items) }
    ensures room { IfOk result (λ lines. board.HasRoom room names.now view.now (map string_bytes lines.items)) }
{
    let heard = heard_lines(alloc, &view.network)?;
    let claims = claim_lines(alloc, &view.network)?;
    let shown = cues_beside(room, view, heard.len(), claims.len());
    let lines = lines_of(alloc, view, names, shown)?;
    let heard = with_claims(heard, claims, room, lines.len())?;
    drawn(alloc, &lines, heard)
}
