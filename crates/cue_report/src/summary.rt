//! What became of each cue of the show file.
ghost use Rattle.std.specs.Prelude.{◌≡◌, IfOk};
ghost use Rattle.cue_report.specs.Summary as spec;

use crate::attempt::Attempt;
use crate::names::Names;
use crate::sentences::{Told, Words, ending_words};
use std::alloc::{AllocError, Global};
use std::fmt::Write;

/// How often a cue was given, and the place of the attempt that it was given by last.
#[derive(Clone, Copy)]
pub struct Tally {
    pub times: u64,
    pub last: usize,
}

// Counts an attempt that was given.
fn counted(tally: Option<Tally>, place: usize) -> Tally
    ensures { result ≡ spec.counted tally place }
{
    let times = match tally {
        None => 1,
        Some(tally) => tally.times.saturating_add(1),
    };
    Tally { times, last: place }
}

// The place in the file of the cue of an attempt that was given.
fn given_place(names: &Names, attempt: &Attempt) -> Option<usize>
    ensures { result ≡ spec.given_place names.now attempt.now.cue attempt.now.given }
{
    match (&attempt.cue, &attempt.given) {
        (Some(cue), Some(_)) => names.place_of(cue),
        _ => None,
    }
}

// Counts the attempt with this number for the cue at a place of the file, if it is there.
fn count_at(tallies: &mut [Option<Tally>], place: Option<usize>, number: usize)
    ensures { tallies.new ≡ spec.count_at place number tallies.old }
{
    match place {
        Some(place) if place < tallies.len() => {
            tallies[place] = Some(counted(tallies[place], number));
        }
        _ => {}
    }
}

/// How often each cue of the file was given, in the order of the file; none for a cue that was not.
pub fn tallies(
    alloc: Global,
    names: &Names,
    attempts: &[Attempt],
) -> Result<Vec<Option<Tally>>, AllocError>
    ensures { IfOk result (λ tallies. tallies.items ≡ spec.tallies names.now attempts.now) }
{
    let mut tallies = vec![in alloc; None; names.count()]?;
    for (number, attempt) in attempts.iter().enumerate() {
        count_at(&mut tallies, given_place(names, attempt), number);
    }
    Ok(tallies)
}

/// What became of a cue: `given 19:31:04, the last of 2 times, complete`.
pub fn tally_words(told: Told<'_>, attempts: &[Attempt], tally: Option<Tally>) -> Words {
    let mut text = String::new(told.alloc);
    let Some(tally) = tally else {
        text.push_str("not given")?;
        return Ok(text);
    };
    if let Some(attempt) = attempts.get(tally.last) {
        text.push_str(told.done("given ", attempt.given)?.as_str())?;
        if tally.times > 1 {
            write!(text, ", the last of {} times", tally.times)?;
        }
        write!(text, ", {}", ending_words(attempt.ended))?;
    }
    Ok(text)
}
