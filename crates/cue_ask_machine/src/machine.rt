//! A question as a machine.
ghost use Rattle.std.specs.Prelude.{◌≡◌, ◌++◌, ◌∷◌, [], IfOk, IsErrOf, OnOk};
ghost use Rattle.cue_machine.specs.Hearing.{heard_as};
ghost use Rattle.cue_ask_machine.specs.Lives.{IsNew, IsOf, IsUnaskable};
ghost use Rattle.cue_ask_machine.specs.Naming.{IsUnnamable};
ghost use Rattle.cue_ask_machine.specs.Stages.{end_of};
ghost use Rattle.cue_ask_machine.specs.Steps as step;
ghost use Rattle.cue_desk.specs.declared.asking.AskFault.TheVariants.{Unwritable};

use crate::letters::{Letter, is_status, letter_with};
use crate::naming::name_datagram;
use crate::question::Question;
use crate::stage::{AskEnd, Stage, silent_at};
use cue_desk::asking::AskFault;
use cue_desk::orders::DeskCommand;
use cue_desk::replying::Replied;
use cue_machine::{Address, Input, Machine, Output, Outputs};
use std::alloc::{AllocError, Global};

/// The host of this machine: 127.0.0.1.
const HOME: u32 = 0x7f00_0001;

/// A question to the controller: what is sent for it, and how far it has come.
#[derive(Drop)]
pub struct AskMachine {
    alloc: Global,
    letter: Letter,
    // The datagram by which it is said who asks.
    name: Option<Vec<u8>>,
    port: u16,
    stage: Stage,
}

/// The controller's port of this machine.
pub fn home(port: u16) -> Address
    ensures { result ≡ step.home port }
{
    Address { host: HOME, port }
}

// Whether a datagram came at the one socket, from the controller's port of this machine.
fn is_theirs(port: u16, at: usize, from: Address) -> bool
    ensures { result ≡ step.is_theirs port at from }
{
    at == 0 && (from.host == HOME && from.port == port)
}

// A datagram goes to the controller's port.
fn push_sent(out: &mut Outputs, port: u16, bytes: &[u8]) -> Result<(), AllocError>
    ensures { OnOk result (out.new ≡ out.old ++ step.sends port bytes.now ∷ []) }
{
    let to = home(port);
    out.push(Output::Send { by: 0, to }, bytes)
}

// What became of it at this moment, by what a datagram answers to it.
fn ended_by(since: u64, now: u64, answer: Option<Replied>) -> Option<AskEnd>
    ensures { result ≡ step.ended_by since now answer }
{
    match answer {
        Some(replied) => Some(AskEnd::Replied(replied)),
        None => silent_at(since, now),
    }
}

// What became of it, once it is said that nobody listens where the socket of this place sends.
fn refused_by(since: u64, now: u64, at: usize) -> Option<AskEnd>
    ensures { result ≡ step.refused_by since now at }
{
    if at == 0 {
        Some(AskEnd::Nobody)
    } else {
        silent_at(since, now)
    }
}

// The stage after one in which a reply is waited for.
fn waited(since: u64, again: bool, end: Option<AskEnd>) -> Stage
    ensures { result ≡ step.waited since again end }
{
    match end {
        Some(end) => Stage::Over(end),
        None => Stage::Waits { since, again },
    }
}

// The datagram by which it is said who asks. A question for the status does not say it.
fn name_for(
    alloc: Global,
    order: DeskCommand,
    name: Option<&[u8]>,
) -> Result<Option<Vec<u8>>, AskFault>
    ensures named { IfOk result (λ said. step.IsNameFor order (step.text_of name.entry) (step.bytes_of said)) }
    ensures unwritable { IsErrOf result Unwritable → IsUnnamable (step.text_of name.entry) }
{
    match name {
        Some(name) => {
            if is_status(order) {
                Ok(None)
            } else {
                Ok(Some(name_datagram(alloc, name)?))
            }
        }
        None => Ok(None),
    }
}

impl AskMachine {
    /// The machine of a question, which has done nothing yet. `Unwritable` if OSC has no datagram for it.
    pub fn new(alloc: Global, question: &Question<'_>) -> Result<AskMachine, AskFault>
        ensures of { IfOk result (λ machine. IsOf question.now machine) }
        ensures fresh { IfOk result (λ machine. IsNew machine) }
        ensures unwritable { IsErrOf result Unwritable → IsUnaskable question.now }
    {
        let letter = letter_with(alloc, 0, question.order, question.others)?;
        let name = name_for(alloc, question.order, question.name)?;
        Ok(AskMachine {
            alloc,
            letter,
            name,
            port: question.port,
            stage: Stage::Names,
        })
    }

    /// How the question ended, if it is over.
    pub fn end(&self) -> Option<AskEnd>
        ensures { result ≡ end_of self.now.stage }
    {
        self.stage.end()
    }

    // The name goes out, if there is one.
    fn push_name(&self, out: &mut Outputs) -> Result<(), AllocError>
        ensures { OnOk result (out.new ≡ out.old ++ step.name_given self.now.port (step.bytes_of self.now.name)) }
    {
        match &self.name {
            Some(name) => push_sent(out, self.port, name),
            None => Ok(()),
        }
    }

    // What is given in a stage.
    fn push_at(&self, out: &mut Outputs) -> Result<(), AllocError>
        ensures { OnOk result (out.new ≡ out.old ++ step.gives self.now) }
    {
        match self.stage {
            Stage::Names => self.push_name(out),
            Stage::Asks { .. } => push_sent(out, self.port, &self.letter.message),
            Stage::Waits { .. } => Ok(()),
            Stage::Over(_) => Ok(()),
        }
    }

    // What a datagram answers to the message that was sent.
    fn answer_at(
        &self,
        at: usize,
        from: Address,
        bytes: &[u8],
    ) -> Result<Option<Replied>, AllocError>
        ensures { IfOk result (λ found. found ≡ step.answer_at self.now at from bytes.now) }
    {
        if is_theirs(self.port, at, from) {
            self.letter.answer_in(self.alloc, bytes)
        } else {
            Ok(None)
        }
    }

    // What became of the message that was sent at a moment, by what is heard now; none if it goes on.
    fn decides(
        &self,
        since: u64,
        now: u64,
        input: Input,
        bytes: &[u8],
    ) -> Result<Option<AskEnd>, AllocError>
        ensures { IfOk result (λ end. end ≡ step.decides self.now since (heard_as now input bytes.now)) }
    {
        match input {
            Input::Datagram { at, from } => {
                Ok(ended_by(since, now, self.answer_at(at, from, bytes)?))
            }
            Input::Refused { at } => Ok(refused_by(since, now, at)),
            Input::Wake => Ok(silent_at(since, now)),
        }
    }

    // The stage after this was heard.
    fn stage_after(&self, now: u64, input: Input, bytes: &[u8]) -> Result<Stage, AllocError>
        ensures { IfOk result (λ stage. stage ≡ step.stage_then self.now (heard_as now input bytes.now)) }
    {
        match self.stage {
            Stage::Names => Ok(Stage::Asks { again: false }),
            Stage::Asks { again } => Ok(Stage::Waits { since: now, again }),
            Stage::Waits { since, again } => {
                let end = self.decides(since, now, input, bytes)?;
                Ok(waited(since, again, end))
            }
            Stage::Over(end) => Ok(Stage::Over(end)),
        }
    }
}

impl Machine for AskMachine {
    ghost steps = { step.Steps };

    ghost after_loss = { step.after_loss };

    ghost wakes = { step.wakes };

    ghost is_over = { step.is_over };

    fn step(
        &mut self,
        now: u64,
        input: Input,
        bytes: &[u8],
        out: &mut Outputs,
    ) -> Result<(), AllocError> {
        self.push_at(out)?;
        match self.stage_after(now, input, bytes) {
            Ok(stage) => {
                self.stage = stage;
                Ok(())
            }
            Err(AllocError) => Err(AllocError),
        }
    }

    fn lose(&mut self, _output: Output) {
        self.stage = self.stage.lost();
    }

    fn wakes(&self) -> Option<u64> {
        self.stage.wakes()
    }

    fn is_over(&self) -> bool {
        self.stage.is_over()
    }
}
