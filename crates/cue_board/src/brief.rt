//! The live attempts if there is little room: a line for each answer, with the numbers of its devices.
ghost use Rattle.std.specs.Prelude.{◌≡◌, ◌++◌, IfOk, OnOk, codes, map, string_bytes};
ghost use Rattle.std.specs.Fmt.{decimal};
ghost use Rattle.std.specs.List.{flat_map};
ghost use Rattle.cue_board.specs.Board as board;
ghost use Rattle.cue_board.specs.Board.{said_of};

use crate::line::BoardLine;
use crate::live::attempt_line;
use cue_exchange::{Answer, DeviceAnswer};
use cue_show::DeviceNo;
use cue_view::view::{LiveAttempt, View};
use cue_words::answer_words;
use std::alloc::{AllocError, Global};

// A number for each answer, in the order in which they are shown.
fn answer_rank(answer: Answer) -> u8
    ensures { result ≡ board.answer_rank answer }
{
    match answer {
        Answer::Waiting => 0,
        Answer::Failed => 1,
        Answer::Ready => 2,
        Answer::Done => 3,
        Answer::LetGo => 4,
        Answer::Excused => 5,
    }
}

// The number of a device, after a space.
fn number_of(alloc: Global, device: DeviceNo) -> Result<String, AllocError>
    ensures { IfOk result (λ text. string_bytes text ≡ codes " " ++ decimal device) }
{
    let device = device.number();
    Ok(format!(in alloc; " {device}")?)
}

/// The numbers of the devices that have this answer, each after a space.
pub(crate) fn numbers_of(
    alloc: Global,
    kind: Answer,
    answers: &[DeviceAnswer],
) -> Result<String, AllocError>
    ensures { IfOk result (λ text. string_bytes text ≡ board.numbers_of kind answers.now) }
{
    let mut numbers = String::new(alloc);
    for answer in answers {
        if answer_rank(answer.answer) == answer_rank(kind) {
            numbers.push_str(number_of(alloc, answer.device)?.as_str())?;
        }
    }
    Ok(numbers)
}

// Puts the line of an answer after the lines, if a device has it.
#[tactic(auto, unfolding(crate::specs::Board::answer_lines))]
fn push_answer(
    alloc: Global,
    lines: &mut Vec<BoardLine>,
    answers: &[DeviceAnswer],
    kind: Answer,
) -> Result<(), AllocError>
    ensures { OnOk result
        (map said_of lines.new.items ≡ map said_of lines.old.items ++ board.answer_lines answers.now kind) }
{
    let numbers = numbers_of(alloc, kind, answers)?;
    if numbers.len() == 0 {
        return Ok(());
    }
    let (words, numbers) = (answer_words(kind), numbers.as_str());
    let said = format!(in alloc; "         {words}:{numbers}")?;
    lines.push(BoardLine::bare(alloc, said))?;
    Ok(())
}

// Puts an attempt with a line for each answer after the lines.
fn push_attempt(
    alloc: Global,
    lines: &mut Vec<BoardLine>,
    attempt: &LiveAttempt,
    view: &View,
) -> Result<(), AllocError>
    ensures { OnOk result
        (map said_of lines.new.items ≡ map said_of lines.old.items ++ board.attempt_brief view.now attempt.now) }
{
    lines.push(attempt_line(alloc, attempt, view)?)?;
    let answers = attempt.devices.as_slice();
    push_answer(alloc, lines, answers, Answer::Waiting)?;
    push_answer(alloc, lines, answers, Answer::Failed)?;
    push_answer(alloc, lines, answers, Answer::Ready)?;
    push_answer(alloc, lines, answers, Answer::Done)?;
    push_answer(alloc, lines, answers, Answer::LetGo)?;
    push_answer(alloc, lines, answers, Answer::Excused)
}

/// Puts each live attempt of the view after the lines.
pub(crate) fn push_live_brief(
    alloc: Global,
    lines: &mut Vec<BoardLine>,
    live: &[LiveAttempt],
    view: &View,
) -> Result<(), AllocError>
    ensures { OnOk result (map said_of lines.new.items
        ≡ map said_of lines.old.items ++ flat_map (board.attempt_brief view.now) live.now) }
{
    for attempt in live {
        push_attempt(alloc, lines, attempt, view)?;
    }
    Ok(())
}
