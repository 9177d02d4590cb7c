//! The rehearsal as a machine.
ghost use Rattle.std.specs.Prelude.{◌≡◌, ◌<◌, [], Some, IfOk, MatchOption, OnErr, OnOk, is_some, length, slice_get};
ghost use Rattle.cue_device.specs.Datagrams.{answered_text};
ghost use Rattle.cue_machine.specs.Hearing.{heard_as};
ghost use Rattle.cue_machine.specs.declared.ears.Input.TheVariants as input;
ghost use Rattle.cue_rehearsal_machine.specs.Deeds.{IsDue, NothingDue, state_of};
ghost use Rattle.cue_rehearsal_machine.specs.Laws.{IsNew};
ghost use Rattle.cue_rehearsal_machine.specs.Steps as step;
ghost use Rattle.cue_rehearsal_machine.specs.Steps.{IsPrinted};

use crate::lines::{order_line, passed_line, push_answer, push_line};
use crate::seat::{Due, Role, Seat, earlier, seats_of};
use cue_device::{Answer, MAX_ANSWER};
use cue_machine::{Address, Input, Machine, Output, Outputs};
use cue_rehearsal::{Chance, Line, Player};
use std::alloc::{AllocError, Global};

/// Rehearsed devices, each at the place of its socket, and what is left to chance.
#[derive(Drop)]
pub struct RehearsalMachine {
    alloc: Global,
    seats: Vec<Seat>,
    // How many of a hundred datagrams are lost, either way.
    loss: u8,
    // How much longer than always a machine may take, in milliseconds.
    spread: u32,
    chance: Chance,
    // Whether a line could not be printed.
    broken: bool,
}

// Whether an answer goes out: if there is one, and if it is not drawn to be lost.
fn goes_out(chance: &mut Chance, loss: u8, answer: &[u8]) -> bool
    ensures goes { result ≡ step.goes_out loss chance.old answer.now }
    ensures after { chance.new ≡ step.after_answer chance.old answer.now }
{
    if answer.is_empty() {
        return false;
    }
    !chance.is_lost(loss)
}

// All that is given of a device: its answer, if that goes out, and the line on it.
fn push_all(
    alloc: Global,
    out: &mut Outputs,
    by: usize,
    to: Address,
    answer: &[u8],
    goes: bool,
    line: Option<Line>,
) -> Result<(), AllocError>
    requires { out.old ≡ [] }
    ensures { OnOk result (IsPrinted (is_some line) (step.sent_given by to answer.now goes) out.new) }
{
    push_answer(out, by, to, answer, goes)?;
    push_line(alloc, out, line)
}

// The first device of which something is due, and what.
fn first_due(seats: &[Seat], now: u64) -> Option<(usize, Due)>
    ensures { MatchOption result (NothingDue now seats.now) (λ found. IsDue seats.now now found.0 found.1) }
{
    for (place, seat) in seats.iter().enumerate() {
        if let Some(due) = seat.due(now) {
            return Some((place, due));
        }
    }
    None
}

// The earliest moment at which something is due of one of these.
fn earliest(seats: &[Seat]) -> Option<u64>
    ensures { result ≡ step.earliest None seats.now }
{
    let mut first = None;
    for seat in seats {
        first = earlier(first, seat.wakes());
    }
    first
}

// Whether it is a line.
fn is_line(output: Output) -> bool
    ensures { result ≡ step.is_line output }
{
    match output {
        Output::Print => true,
        Output::Send { .. } => false,
        Output::Say => false,
        Output::Replace => false,
    }
}

impl RehearsalMachine {
    /// These devices, of which nothing is known yet: of a hundred datagrams so many are lost, either way, and what is
    /// ordered takes up to so many milliseconds longer than always. The draws come from the seed.
    #[tactic(auto, using(crate::proofs::LifeLemmas::all_fresh))]
    pub fn new(
        alloc: Global,
        roles: &[Role],
        loss: u8,
        spread: u32,
        seed: u64,
    ) -> Result<RehearsalMachine, AllocError>
        ensures begun { IfOk result (λ m. state_of m ≡ step.begun roles.now loss spread seed) }
        ensures fresh { IfOk result (λ m. IsNew m) }
    {
        let seats = seats_of(alloc, roles)?;
        Ok(RehearsalMachine {
            alloc,
            seats,
            loss,
            spread,
            chance: Chance::new(seed),
            broken: false,
        })
    }

    // What a device of this place answers, and the line on it, are given; the draws go on.
    fn give(
        &self,
        at: usize,
        player: &Player,
        to: Address,
        answer: Option<Answer>,
        chance: &mut Chance,
        line: Option<Line>,
        out: &mut Outputs,
    ) -> Result<(), AllocError>
        requires empty { out.old ≡ [] }
        ensures given { OnOk result (step.IsGiven at to (answered_text player.now.device.number answer) self.now.loss
            chance.old (is_some line) out.new) }
        ensures drawn { chance.new ≡ step.after_answer chance.old (answered_text player.now.device.number answer) }
    {
        let mut text = [0; MAX_ANSWER];
        let len = player.device().write_answer(answer, &mut text);
        let goes = goes_out(chance, self.loss, &text[..len]);
        push_all(self.alloc, out, at, to, &text[..len], goes, line)
    }

    // A datagram came to the device of this place.
    #[tactic(auto, using(crate::proofs::StepLemmas::sits_there, crate::proofs::StepLemmas::lost_step))]
    fn take(
        &mut self,
        now: u64,
        at: usize,
        from: Address,
        bytes: &[u8],
        out: &mut Outputs,
    ) -> Result<(), AllocError>
        requires empty { out.old ≡ [] }
        requires within { at < length self.old.seats.items }
        ensures taken { OnOk result (step.Steps (state_of self.old) (heard_as now (input.Datagram at from) bytes.now)
            out.new (state_of self.new)) }
        ensures err { OnErr result (self.new ≡ self.old) }
    {
        let mut chance = self.chance;
        if chance.is_lost(self.loss) {
            self.chance = chance;
            return Ok(());
        }
        let longer = chance.up_to(self.spread);
        let seat = &self.seats[at];
        let meaning = seat.player.meaning(bytes);
        let heard = seat.player.foresee(&meaning);
        let line = order_line(&seat.player, &meaning, heard.order);
        self.give(at, &seat.player, from, heard.answer, &mut chance, line, out)?;
        self.seats[at].hear(now, longer, from, &meaning);
        self.chance = chance;
        Ok(())
    }

    // This is due of the device of this place.
    fn pass_at(
        &mut self,
        now: u64,
        at: usize,
        due: Due,
        out: &mut Outputs,
    ) -> Result<(), AllocError>
        requires empty { out.old ≡ [] }
        requires is_due { IsDue self.old.seats.items now at due }
        ensures passed { OnOk result (step.Steps (state_of self.old) (heard_as now input.Wake []) out.new
            (state_of self.new)) }
        ensures err { OnErr result (self.new ≡ self.old) }
    {
        let mut chance = self.chance;
        let seat = &self.seats[at];
        let answer = seat.foresee(due);
        let line = passed_line(&seat.player, due, answer);
        self.give(
            at,
            &seat.player,
            seat.controller,
            answer,
            &mut chance,
            line,
            out,
        )?;
        self.seats[at].pass(due, now);
        self.chance = chance;
        Ok(())
    }

    // It was woken: a device of which something is due has its turn.
    #[tactic(auto, using(crate::proofs::StepLemmas::idle_step))]
    fn pass(&mut self, now: u64, out: &mut Outputs) -> Result<(), AllocError>
        requires { out.old ≡ [] }
        ensures passed { OnOk result (step.Steps (state_of self.old) (heard_as now input.Wake []) out.new
            (state_of self.new)) }
        ensures err { OnErr result (self.new ≡ self.old) }
    {
        match first_due(&self.seats, now) {
            Some((at, due)) => self.pass_at(now, at, due, out),
            None => Ok(()),
        }
    }
}

impl Machine for RehearsalMachine {
    ghost steps = { step.steps };

    ghost after_loss = { step.after_loss };

    ghost wakes = { step.wakes };

    ghost is_over = { step.is_over };

    #[tactic(auto, using(crate::proofs::StepLemmas::no_seat_step, crate::proofs::StepLemmas::refused_step, crate::proofs::StepLemmas::wake_step))]
    fn step(
        &mut self,
        now: u64,
        input: Input,
        bytes: &[u8],
        out: &mut Outputs,
    ) -> Result<(), AllocError> {
        match input {
            Input::Datagram { at, from } => {
                if at < self.seats.len() {
                    self.take(now, at, from, bytes, out)
                } else {
                    Ok(())
                }
            }
            Input::Refused { .. } => Ok(()),
            Input::Wake => self.pass(now, out),
        }
    }

    fn lose(&mut self, output: Output) {
        self.broken = self.broken || is_line(output);
    }

    fn wakes(&self) -> Option<u64> {
        earliest(&self.seats)
    }

    fn is_over(&self) -> bool {
        self.broken
    }
}
