//! A view as JSON: what the page draws, and nothing else. What it says of the show, the buttons and the alarms is made
//! of the view alone; the names of a show file stand beside it, by the numbers that they belong to.
ghost use Rattle.std.specs.Prelude.{◌≡◌, IfOk, OnOk};
ghost use Rattle.serde_json.specs.Data.{no_members};
ghost use Rattle.serde_json.specs.View.{members_view, view};
ghost use Rattle.cue_page.specs.Page as page;

mod alarms;
mod buttons;
mod called;
mod ends;
mod live;
mod marks;
mod network;
mod said;
mod stack;
mod whereabouts;

use alarms::alarms_value;
use buttons::{has_moves, others_value};
use called::names_value;
use cue_board::Names;
use cue_show::CueNo;
use cue_show_file::{Group, cue_text};
use cue_view::view::View;
use ends::{past_value, told_or_null};
use live::live_value;
pub use marks::CurtainMark;
use marks::marks_value;
use network::network_value;
use said::{said_value, unsent_value};
use serde_json::{Map, Value, json, put};
use stack::{next_value, stack_value};
use std::alloc::{AllocError, Global};
pub use whereabouts::Standing;
use whereabouts::whereabouts_value;

// How old a thing is at this moment; null if it never came.
fn age_value(at: u64, moment: Option<u64>) -> Value
    ensures { view result ≡ page.age_data at moment }
{
    match moment {
        Some(moment) => Value::from(at.saturating_sub(moment)),
        None => Value::Null,
    }
}

// For how long something is silent; null if it is not late.
fn silent_value(late: Option<u64>) -> Value
    ensures { view result ≡ page.silent_data late }
{
    match late {
        Some(silent) => Value::from(silent),
        None => Value::Null,
    }
}

// Which of controller and relay is late.
fn late_value(alloc: Global, shown: &View) -> Result<Value, AllocError>
    ensures { IfOk result (λ v. view v ≡ page.late_data shown.now) }
{
    let (relay, serve) = (
        silent_value(shown.relay_late()),
        silent_value(shown.serve_late()),
    );
    json!(in alloc; { "relay": relay, "serve": serve })
}

// The attempt that is chosen; null if none is.
fn chosen_value(chosen: Option<u32>) -> Value
    ensures { view result ≡ page.chosen_data chosen }
{
    match chosen {
        Some(attempt) => Value::from(u64::from(attempt)),
        None => Value::Null,
    }
}

// The cue to which the way back leads; null if there is none.
fn back_value(alloc: Global, back: Option<CueNo>) -> Result<Value, AllocError>
    ensures { IfOk result (λ v. view v ≡ page.back_data back) }
{
    match back {
        Some(cue) => Ok(Value::String(String::from_str(alloc, cue_text(&cue))?)),
        None => Ok(Value::Null),
    }
}

// What a view says, part by part: the first half by their names.
#[derive(Drop)]
struct FirstHalf {
    alarms: Value,
    back: Value,
    before: Value,
    chosen: Value,
    failed: Value,
    last: Value,
    late: Value,
    lit: Value,
    live: Value,
    moves: bool,
    network: Value,
    next: Value,
}

// The second half.
#[derive(Drop)]
struct SecondHalf {
    number: u64,
    past: Value,
    read: Value,
    said: Value,
    served: Value,
    stack: Value,
    unsent: Value,
    whereabouts: Value,
}

// The first half of the members.
fn first_members(alloc: Global, half: FirstHalf) -> Result<Map<String, Value>, AllocError>
    ensures { IfOk result (λ map. members_view map.entries ≡ page.first_members half no_members) }
{
    let FirstHalf {
        alarms,
        back,
        before,
        chosen,
        failed,
        last,
        late,
        lit,
        live,
        moves,
        network,
        next,
    } = half;
    let mut map = Map::new(alloc);
    put(&mut map, alloc, "alarms", alarms)?;
    put(&mut map, alloc, "back", back)?;
    put(&mut map, alloc, "before", before)?;
    put(&mut map, alloc, "chosen", chosen)?;
    put(&mut map, alloc, "failed", failed)?;
    put(&mut map, alloc, "last", last)?;
    put(&mut map, alloc, "late", late)?;
    put(&mut map, alloc, "lit", lit)?;
    put(&mut map, alloc, "live", live)?;
    put(&mut map, alloc, "moves", Value::Bool(moves))?;
    put(&mut map, alloc, "network", network)?;
    put(&mut map, alloc, "next", next)?;
    Ok(map)
}

// Puts the second half of the members after them.
#[tactic(auto, unfolding(crate::specs::Page::with_second))]
fn put_second(
    alloc: Global,
    map: &mut Map<String, Value>,
    half: SecondHalf,
) -> Result<(), AllocError>
    ensures { OnOk result
        (members_view map.new.entries ≡ page.with_second half (members_view map.old.entries)) }
{
    let SecondHalf {
        number,
        past,
        read,
        said,
        served,
        stack,
        unsent,
        whereabouts,
    } = half;
    put(map, alloc, "number", Value::from(number))?;
    put(map, alloc, "past", past)?;
    put(map, alloc, "read", read)?;
    put(map, alloc, "said", said)?;
    put(map, alloc, "served", served)?;
    put(map, alloc, "stack", stack)?;
    put(map, alloc, "unsent", unsent)?;
    put(map, alloc, "whereabouts", whereabouts)
}

// All parts of a view.
#[derive(Drop)]
struct Parts {
    first: FirstHalf,
    second: SecondHalf,
}

// All parts, each by its name.
fn joined(alloc: Global, parts: Parts) -> Result<Value, AllocError>
    ensures { IfOk result (λ v. view v ≡ page.parts_data parts) }
{
    let Parts { first, second } = parts;
    let mut map = first_members(alloc, first)?;
    put_second(alloc, &mut map, second)?;
    Ok(Value::Object(map))
}

// The parts of a view.
fn parts_of(
    alloc: Global,
    shown: &View,
    standing: &Standing<'_>,
    port: u16,
    groups: &[Group],
) -> Result<Parts, AllocError>
    ensures { IfOk result (λ parts. page.parts_data parts ≡ page.view_data port groups.now standing.now shown.now) }
{
    let at = shown.at;
    let first = FirstHalf {
        alarms: alarms_value(alloc, &shown.alarms, at, port)?,
        back: back_value(alloc, shown.back)?,
        before: said_value(alloc, shown.before, port)?,
        chosen: chosen_value(shown.chosen),
        failed: past_value(alloc, &shown.failed)?,
        last: told_or_null(alloc, shown.last.as_ref())?,
        late: late_value(alloc, shown)?,
        lit: others_value(alloc, &shown.lit)?,
        live: live_value(alloc, &shown.live, shown)?,
        moves: has_moves(&shown.lit),
        network: network_value(alloc, &shown.network)?,
        next: next_value(alloc, shown.next, groups)?,
    };
    let second = SecondHalf {
        number: shown.number,
        past: past_value(alloc, &shown.past)?,
        read: age_value(at, shown.read),
        said: said_value(alloc, shown.said, port)?,
        served: age_value(at, shown.served),
        stack: stack_value(alloc, &shown.stack)?,
        unsent: unsent_value(alloc, shown.unsent)?,
        whereabouts: whereabouts_value(alloc, standing, shown.next, groups)?,
    };
    Ok(Parts { first, second })
}

/// What a view says, and where devices stand; these cues are stood by together.
pub fn view_value(
    alloc: Global,
    shown: &View,
    standing: &Standing<'_>,
    port: u16,
    groups: &[Group],
) -> Result<Value, AllocError>
    ensures { IfOk result (λ v. view v ≡ page.view_data port groups.now standing.now shown.now) }
{
    let parts = parts_of(alloc, shown, standing, port, groups)?;
    joined(alloc, parts)
}

/// In what manner a page shows its view: what stands beside the view and its names.
#[derive(Clone, Copy)]
pub struct Manner<'a> {
    /// Names the run of the desk: a page that was loaded in another run loads itself again.
    pub run: &'a str,
    /// Whether Move here and Release ask for the word of the show lock.
    pub is_locked: bool,
    /// Whether the page only shows, and takes no press.
    pub is_read_only: bool,
    /// A line about the show file; none if there is nothing to tell.
    pub told: Option<&'a str>,
    /// Whether a rehearsal plays the devices of the show file.
    pub is_rehearsed: bool,
    /// When the curtain went up and down, in order; none if the page keeps no marks.
    pub marks: Option<&'a [CurtainMark]>,
}

// The line about the show file; null if there is none.
fn file_line_value(alloc: Global, manner: &Manner<'_>) -> Result<Value, AllocError>
    ensures { IfOk result (λ v. view v ≡ page.file_line_data manner.now) }
{
    match manner.told {
        Some(told) => Ok(Value::String(String::from_str(alloc, told)?)),
        None => Ok(Value::Null),
    }
}

// What the page gets: the facts of a view, in what manner they are shown, and what its numbers are called.
fn page_value(
    alloc: Global,
    called: &Value,
    manner: &Manner<'_>,
    facts: &Value,
) -> Result<Value, AllocError>
    ensures { IfOk result (λ v. view v ≡ page.page_data (view called.now) manner.now (view facts.now)) }
{
    let (told, marks) = (
        file_line_value(alloc, manner)?,
        marks_value(alloc, manner.marks)?,
    );
    json!(in alloc; {
        "locked": manner.is_locked, "marks": marks, "names": called, "readonly": manner.is_read_only,
        "rehearsed": manner.is_rehearsed, "run": manner.run, "told": told, "view": facts
    })
}

/// A view as JSON, with the names of the show file for the numbers in it, and in what manner it is shown.
pub fn view_text(
    alloc: Global,
    shown: &View,
    standing: &Standing<'_>,
    names: &Names<'_>,
    manner: &Manner<'_>,
) -> Result<String, AllocError> {
    let called = names_value(alloc, names)?;
    let facts = view_value(alloc, shown, standing, names.port, names.together)?;
    page_value(alloc, &called, manner, &facts)?.to_string(alloc)
}
