//! The parts of the report: what stands under each heading.
use crate::evening::{Evening, Kept, totals_of};
use crate::running::{Act, acts_of, played_of, run_of, whole_of};
use crate::sentences::{
    Told, Words, counts_words, more_words, refusal_words, run_words, span_words, totals_words,
};
use crate::summary::{tallies, tally_words};
use cue_columns::Part;
use std::alloc::{AllocError, Global};

// How many more there were than are kept, if there were more.
fn say_more<T>(part: &mut Part, alloc: Global, kept: &Kept<T>) -> Result<(), AllocError> {
    if kept.more == 0 {
        return Ok(());
    }
    part.say(alloc, more_words(alloc, kept.more)?)
}

// What was played, and an interval. Answers the number of the part that was played last.
fn push_act(told: Told<'_>, part: &mut Part, act: Act, number: u64) -> Result<u64, AllocError> {
    let (front, number, stretch) = match act {
        Act::Played(stretch) => {
            let number = number.saturating_add(1);
            (format!(in told.alloc; "Part {number}")?, number, stretch)
        }
        Act::Interval(stretch) => (String::from_str(told.alloc, "Interval")?, number, stretch),
    };
    part.push(
        front,
        run_words(told, stretch.seconds(), stretch, ("", ""))?,
    )?;
    Ok(number)
}

// How long the show ran without marks: from the first GO to the last end.
fn without_marks(told: Told<'_>, evening: &Evening, part: Part) -> Result<Part, AllocError> {
    let mut part = part;
    if let Some(run) = run_of(evening.attempts.list()) {
        let words = ("the first GO ", "the last end ");
        part.say(told.alloc, run_words(told, run.seconds(), run, words)?)?;
    }
    Ok(part)
}

// How long the show ran: by the marks of the curtain, if there are two.
fn running(told: Told<'_>, evening: &Evening) -> Result<Part, AllocError> {
    let mut part = Part::new(told.alloc, "Running time");
    let acts = acts_of(told.alloc, &evening.marks)?;
    let mut number = 0;
    for act in acts.iter() {
        number = push_act(told, &mut part, *act, number)?;
    }
    if acts.is_empty() {
        return without_marks(told, evening, part);
    }
    if let Some(whole) = whole_of(&evening.marks) {
        let words = ("curtain up ", "curtain down ");
        let said = run_words(told, played_of(&acts), whole, words)?;
        part.push(String::from_str(told.alloc, "Played")?, said)?;
    }
    Ok(part)
}

// What became of each cue of the file; or only the cues that were never given.
fn cues(told: Told<'_>, evening: &Evening, ungiven: bool) -> Result<Part, AllocError> {
    let heading = if ungiven { "Never given" } else { "Cues" };
    let mut part = Part::new(told.alloc, heading);
    let attempts = evening.attempts.list();
    let tallies = tallies(told.alloc, told.names, attempts)?;
    for (place, tally) in tallies.iter().enumerate() {
        let cue = told.cue(told.names.cue_at(place))?;
        if !ungiven {
            part.push(cue, tally_words(told, attempts, *tally)?)?;
        } else if tally.is_none() {
            part.say(told.alloc, cue)?;
        }
    }
    Ok(part)
}

// What `serve` did.
fn deeds(told: Told<'_>, evening: &Evening) -> Result<Part, AllocError> {
    let mut part = Part::new(told.alloc, "Controller");
    for done in evening.deeds.items.iter() {
        part.push(told.moment(done.at)?, done.said.clone()?)?;
    }
    say_more(&mut part, told.alloc, &evening.deeds)?;
    Ok(part)
}

// What was refused to people and programs, or to devices.
fn refusals(told: Told<'_>, evening: &Evening, of_device: bool) -> Result<Part, AllocError> {
    let heading = if of_device {
        "Answers of devices that were refused"
    } else {
        "Refused"
    };
    let mut part = Part::new(told.alloc, heading);
    for refusal in evening.refusals.items.iter() {
        if refusal.by.is_device() == of_device {
            part.push(told.moment(refusal.at)?, refusal_words(told, refusal)?)?;
        }
    }
    if of_device {
        say_more(&mut part, told.alloc, &evening.refusals)?;
    }
    Ok(part)
}

// How much there was of all.
fn totals(told: Told<'_>, evening: &Evening) -> Result<Part, AllocError> {
    let mut part = Part::new(told.alloc, "Totals");
    let alloc = told.alloc;
    part.say(
        alloc,
        totals_words(alloc, totals_of(evening.attempts.list()))?,
    )?;
    part.say(alloc, format!(in alloc; "{} refused", evening.refused)?)?;
    part.say(alloc, counts_words(alloc, evening.counts)?)?;
    if evening.unread_marks > 0 {
        let said = format!(in alloc; "lines that are no mark: {}", evening.unread_marks)?;
        part.say(alloc, said)?;
    }
    Ok(part)
}

/// What stands before the attempts.
pub fn before(told: Told<'_>, evening: &Evening) -> Result<[Part; 3], AllocError> {
    Ok([
        running(told, evening)?,
        cues(told, evening, false)?,
        deeds(told, evening)?,
    ])
}

/// What stands after them.
pub fn after(told: Told<'_>, evening: &Evening) -> Result<[Part; 4], AllocError> {
    Ok([
        refusals(told, evening, false)?,
        refusals(told, evening, true)?,
        cues(told, evening, true)?,
        totals(told, evening)?,
    ])
}

// How the times are meant.
fn note(told: Told<'_>) -> Words {
    let zone = told.times.zone(told.alloc)?;
    let zone = zone.as_str();
    format!(in told.alloc;
        "All times are {zone}. The log has whole seconds: a time between two lines may be a second off."
    )
}

/// The head of the report.
#[derive(Drop)]
pub struct Head {
    /// What the show is called; empty if that is not said.
    pub title: String,
    /// When it was.
    pub span: String,
    /// How many attempts ended how.
    pub totals: String,
    /// How the times are meant.
    pub note: String,
}

/// The head of the report.
pub fn head_of(told: Told<'_>, evening: &Evening) -> Result<Head, AllocError> {
    Ok(Head {
        title: told.names.title.clone()?,
        span: span_words(told, evening)?,
        totals: totals_words(told.alloc, totals_of(evening.attempts.list()))?,
        note: note(told)?,
    })
}
