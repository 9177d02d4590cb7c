//! A load as a machine.
ghost use Rattle.std.specs.Prelude.{◌≡◌, ◌++◌, ◌∷◌, [], IfOk, IsErrOf, OnOk, OnErr, Some, None, slice_get};
ghost use Rattle.cue_desk.specs.Loading.{message_of};
ghost use Rattle.cue_desk.specs.declared.asking.AskFault.TheVariants.{Unwritable};
ghost use Rattle.cue_machine.specs.Hearing.{heard_as};
ghost use Rattle.cue_load_machine.specs.Letters.{CannotBeSaid, IsAsking};
ghost use Rattle.cue_load_machine.specs.Lives.{IsNew};
ghost use Rattle.cue_load_machine.specs.Stages.{end_of};
ghost use Rattle.cue_load_machine.specs.Steps as step;
ghost use Rattle.cue_load_machine.specs.Steps.{state_of};

use crate::asks::{Ask, alone_in};
use crate::deciding::{
    Came, begins, came_of, first_stage, is_refused, is_theirs, note, push_none, push_told, waited,
};
use crate::letters::asks_of;
use crate::stage::{LoadEnd, Stage, Try, Waits, late_at};
use cue_ask_machine::home;
use cue_desk::asking::{AskFault, Asked};
use cue_desk::replying::Replied;
use cue_loading::Manner;
use cue_machine::{Input, Machine, Output, Outputs};
use std::alloc::{AllocError, Global};

/// A load: what it asks, in order, and how far it has come.
#[derive(Drop)]
pub struct LoadMachine {
    alloc: Global,
    port: u16,
    manner: Manner,
    // What the store had, to be written before anything is asked; none if nothing is to be kept.
    copy: Option<Vec<u8>>,
    asks: Vec<Ask>,
    // What was replied to what stands at each place.
    answers: Vec<Option<Replied>>,
    stage: Stage,
}

// The copy of the store.
fn push_copy(out: &mut Outputs, copy: &Option<Vec<u8>>) -> Result<(), AllocError>
    ensures { OnOk result (out.new ≡ out.old ++ step.copy_given (step.bytes_of copy.now)) }
{
    match copy {
        Some(text) => out.push(Output::Replace, text),
        None => Ok(()),
    }
}

// The message of this place, by a socket.
fn push_message(out: &mut Outputs, port: u16, ask: &Ask, socket: usize) -> Result<(), AllocError>
    ensures { OnOk result (out.new ≡ out.old ++ step.message_given port ask.now socket ∷ []) }
{
    let to = home(port);
    out.push(Output::Send { by: socket, to }, &ask.letter.message)
}

impl LoadMachine {
    /// The machine that writes this copy, if there is one, and then asks these, in order. It has done nothing yet.
    pub(crate) fn of(
        alloc: Global,
        port: u16,
        manner: Manner,
        copy: Option<Vec<u8>>,
        asks: Vec<Ask>,
    ) -> Result<LoadMachine, AllocError>
        ensures asks { IfOk result (λ m. m.asks ≡ asks) }
        ensures copy { IfOk result (λ m. m.copy ≡ copy) }
        ensures port { IfOk result (λ m. m.port ≡ port) }
        ensures manner { IfOk result (λ m. m.manner ≡ manner) }
        ensures fresh { IfOk result (λ m. IsNew (state_of m)) }
        ensures untold { IfOk result (λ m. m.answers.items ≡ step.none_told asks.items) }
    {
        let mut answers = Vec::new(alloc);
        push_none(&mut answers, &asks)?;
        let stage = first_stage(&copy, &asks);
        Ok(LoadMachine {
            alloc,
            port,
            manner,
            copy,
            asks,
            answers,
            stage,
        })
    }

    /// The machine that asks one thing of the controller at this port, and changes nothing. `Unwritable` if it cannot be
    /// asked.
    #[tactic(auto, using(crate::proofs::PlanLemmas::is_asking))]
    pub fn asking(alloc: Global, port: u16, asked: &Asked<'_>) -> Result<LoadMachine, AskFault>
        ensures asks { IfOk result (λ m. IsAsking port asked.now m) }
        ensures unwritable { IsErrOf result Unwritable → CannotBeSaid (message_of asked.now) }
    {
        let asks = asks_of(alloc, asked)?;
        Ok(LoadMachine::of(alloc, port, Manner::Adds, None, asks)?)
    }

    /// The machine that writes this copy, and asks nothing.
    pub fn copying(alloc: Global, text: Vec<u8>) -> Result<LoadMachine, AllocError>
        ensures { IfOk result (λ m. IsNew (state_of m)) }
    {
        LoadMachine::of(alloc, 0, Manner::Adds, Some(text), Vec::new(alloc))
    }

    /// What was replied to each message that asks one thing, in order.
    pub fn told(&self, alloc: Global) -> Result<Vec<Option<Replied>>, AllocError>
        ensures { IfOk result (λ told. told.items ≡ step.told_of self.now.asks.items self.now.answers.items) }
    {
        let mut told = Vec::new(alloc);
        push_told(&mut told, &self.asks, &self.answers)?;
        Ok(told)
    }

    /// How many things are done: those that stand before the message whose turn it is, or at which it ended.
    pub fn done(&self) -> usize
        ensures { result ≡ step.done self.now }
    {
        let place = self.stage.place(self.asks.len()).min(self.asks.len());
        alone_in(&self.asks[..place])
    }

    /// How it ended, if it is over.
    pub fn end(&self) -> Option<LoadEnd>
        ensures { result ≡ end_of self.now.stage }
    {
        self.stage.end()
    }

    /// How far it has come.
    pub fn stage(&self) -> Stage
        ensures { result ≡ self.now.stage }
    {
        self.stage
    }

    // What is given in a stage.
    fn push_at(&self, out: &mut Outputs) -> Result<(), AllocError>
        ensures { OnOk result (out.new ≡ out.old ++ step.gives (state_of self.now)) }
    {
        match self.stage {
            Stage::Copies => push_copy(out, &self.copy),
            Stage::Sends(of) => self.push_try(of, out),
            Stage::Waits(_) => Ok(()),
            Stage::Over(_) => Ok(()),
        }
    }

    // The message that is to be sent.
    #[tactic(auto, using(crate::proofs::StepLemmas::nothing_given))]
    fn push_try(&self, of: Try, out: &mut Outputs) -> Result<(), AllocError>
        ensures { let given = step.try_given self.now.port (slice_get self.now.asks.items of.place) of in
            OnOk result (out.new ≡ out.old ++ given) }
    {
        match self.asks.get(of.place) {
            Some(ask) => push_message(out, self.port, ask, of.socket),
            None => Ok(()),
        }
    }

    // What a datagram replies to this message, which was sent by a socket.
    fn reply_to(
        &self,
        ask: &Ask,
        socket: usize,
        input: Input,
        bytes: &[u8],
    ) -> Result<Option<Replied>, AllocError>
        ensures { IfOk result (λ found. found ≡ step.reply_to self.now.port ask.now socket input bytes.now) }
    {
        match input {
            Input::Datagram { at, from } => {
                if is_theirs(self.port, socket, at, from) {
                    ask.letter.answer_in(self.alloc, bytes)
                } else {
                    Ok(None)
                }
            }
            Input::Refused { .. } => Ok(None),
            Input::Wake => Ok(None),
        }
    }

    // What that which is heard means for the message that was sent.
    fn came(&self, waits: Waits, now: u64, input: Input, bytes: &[u8]) -> Result<Came, AllocError>
        ensures { let found = slice_get self.now.asks.items waits.of.place in
            IfOk result (λ came. came ≡ step.came_at self.now.port found waits (heard_as now input bytes.now)) }
    {
        match self.asks.get(waits.of.place) {
            Some(ask) => {
                let reply = self.reply_to(ask, waits.of.socket, input, bytes)?;
                let refused = is_refused(waits.of.socket, input);
                Ok(came_of(ask.form, waits.since, now, refused, reply))
            }
            None => Ok(Came::Nothing),
        }
    }

    // The stage after this for the message that was sent, at this moment.
    fn after_wait(&self, waits: Waits, now: u64, came: &Came) -> Stage
        ensures { let found = slice_get self.now.asks.items waits.of.place in
            result ≡ step.waited_at self.now.asks.items found waits now came.now }
    {
        match self.asks.get(waits.of.place) {
            Some(ask) => waited(&self.asks, ask, waits, now, came),
            None => Stage::Waits(waits),
        }
    }

    // The stage once a message has left.
    fn after_try(&self, of: Try, now: u64) -> Stage
        ensures { result ≡ step.sent_at (slice_get self.now.asks.items of.place) of now }
    {
        match self.asks.get(of.place) {
            Some(ask) => Stage::Waits(of.sent(ask.form, now)),
            None => Stage::Over(LoadEnd::Done),
        }
    }

    // Hears this while the replies to a message are waited for.
    fn wait(&mut self, waits: Waits, now: u64, input: Input, bytes: &[u8]) -> Result<(), AllocError>
        ensures waited { OnOk result (state_of self.new
            ≡ step.after_wait (state_of self.old) waits (heard_as now input bytes.now)) }
        ensures err { OnErr result (self.new ≡ self.old) }
    {
        match self.came(waits, now, input, bytes) {
            Ok(came) => {
                self.stage = self.after_wait(waits, now, &came);
                note(&mut self.answers, waits.slot, came);
                Ok(())
            }
            Err(AllocError) => Err(AllocError),
        }
    }

    // Hears this.
    fn hear(&mut self, now: u64, input: Input, bytes: &[u8]) -> Result<(), AllocError>
        ensures heard { OnOk result (state_of self.new
            ≡ step.state_then (state_of self.old) (heard_as now input bytes.now)) }
        ensures err { OnErr result (self.new ≡ self.old) }
    {
        match self.stage {
            Stage::Copies => {
                self.stage = begins(&self.asks, 0, 0);
                Ok(())
            }
            Stage::Sends(of) => {
                self.stage = self.after_try(of, now);
                Ok(())
            }
            Stage::Waits(waits) => self.wait(waits, now, input, bytes),
            Stage::Over(_) => Ok(()),
        }
    }

    // When a message that was sent is late.
    fn late_at(&self, waits: Waits) -> u64
        ensures { result ≡ step.late_of (slice_get self.now.asks.items waits.of.place) waits }
    {
        match self.asks.get(waits.of.place) {
            Some(ask) => late_at(ask.form, waits.since),
            None => 0,
        }
    }
}

impl Machine for LoadMachine {
    ghost steps = { step.Steps };

    ghost after_loss = { step.after_loss };

    ghost wakes = { step.wakes };

    ghost is_over = { step.is_over };

    fn step(
        &mut self,
        now: u64,
        input: Input,
        bytes: &[u8],
        out: &mut Outputs,
    ) -> Result<(), AllocError> {
        self.push_at(out)?;
        self.hear(now, input, bytes)
    }

    fn lose(&mut self, output: Output) {
        self.stage = self.stage.lost(self.manner, output);
    }

    fn wakes(&self) -> Option<u64> {
        match self.stage {
            Stage::Copies => Some(0),
            Stage::Sends(_) => Some(0),
            Stage::Waits(waits) => Some(self.late_at(waits)),
            Stage::Over(_) => None,
        }
    }

    fn is_over(&self) -> bool {
        self.stage.is_over()
    }
}
