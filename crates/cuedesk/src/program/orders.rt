//! The commands of an evening: one message each, as it was typed.
ghost use Rattle.std.specs.Prelude.{◌≡◌, ◌++◌, ◌∷◌, [], IfErr, IfOk, IfSome, List, None, OnOk, Option, is_some};
ghost use Rattle.std.specs.Fmt.{with_newline};
ghost use Rattle.std.specs.Io.KnownBytes.{Appends};
ghost use Rattle.cue_desk.specs.declared.ending.Ending.TheVariants.{Unwritten};
ghost use Rattle.cue_machine.specs.Growing.{Grew};
ghost use Rattle.cue_order_words.specs.Told.{ending_of};
ghost use Rattle.cuedesk.specs.Orders as orders;

use cue_ask_machine::{AskEnd, Question, ask, home};
use cue_asker::AskerName;
use cue_desk::asking::AskFault;
use cue_desk::ending::Ending;
use cue_desk::orders::DeskCommand;
use cue_desk::ports::controller_port;
use cue_desk::replying::Replied;
use cue_edge_run::{NetEars, SocketPost, connected};
use cue_order_words::{Answer, Told, WayBack, WordsBack, is_move};
use cue_saying::say;
use cue_show::CueNo;
use mio::net::UdpSocket;
use std::fmt::Display;
use std::io::{self, Eprint, ErrorKind, Write};
use std::net::Net;
use std::time::Clock;

// ---- what is told

// Prints a line, and sees that all of it left.
fn put<W: Write, D: Display + Drop>(writer: &mut W, what: D) -> Result<(), Ending>
    ensures left { OnOk result (IfSome (with_newline (D.output what)) (Appends (W.contents writer.old)
        (W.contents writer.new))) }
    ensures fault { IfErr result (λ ending. ending ≡ Unwritten) }
{
    match writer.writeln(what) {
        Ok(()) => match writer.flush() {
            Ok(()) => Ok(()),
            Err(_) => Err(Ending::Unwritten),
        },
        Err(_) => Err(Ending::Unwritten),
    }
}

// Tells what became of a command: what is done on the output, and all else on standard error.
fn tell<R: Eprint, W: Write>(rt: &R, answer: &Answer<'_>, writer: &mut W) -> Result<(), Ending>
    ensures { orders.TellsBy (ending_of answer.now.told.now) (orders.answer_line answer.now) result
        (W.contents writer.old) (W.contents writer.new) }
{
    match answer.told.ending() {
        None => put(writer, format_args!("{answer}")),
        Some(ending) => {
            say(rt, format_args!("{answer}"));
            Err(ending)
        }
    }
}

// Tells how to go back, if a move was made.
fn tell_back<W: Write>(way: &Option<WayBack>, port: u16, writer: &mut W) -> Result<(), Ending>
    ensures told { OnOk result (Appends (W.contents writer.old) (W.contents writer.new)
        (orders.back_line way.now port)) }
    ensures fault { IfErr result (λ ending. ending ≡ Unwritten) }
{
    match way {
        Some(way) => {
            let words = WordsBack { way, port };
            put(writer, format_args!("{words}"))
        }
        None => Ok(()),
    }
}

// Tells how a question ended; after a move, how to go back.
fn tell_end<R: Eprint, W: Write>(
    rt: &R,
    question: &Question<'_>,
    end: &AskEnd,
    before: Option<WayBack>,
    writer: &mut W,
) -> Result<(), Ending>
    ensures { orders.Tells question.now end.now before result (W.contents writer.old) (W.contents writer.new) }
{
    let told = Told::of(end);
    let answer = Answer {
        told: &told,
        order: &question.order,
        port: question.port,
    };
    tell(rt, &answer, writer)?;
    tell_back(&WayBack::of(&told, before), question.port, writer)
}

// ---- how it is asked

// Why a message was lost.
fn why_lost(fault: Option<io::Error>) -> io::Error {
    match fault {
        Some(why) => why,
        None => io::Error::from(ErrorKind::NotConnected),
    }
}

// How a question ended; else why its message could not be sent. If nothing could be heard any more once it was sent, it
// is not known what became of it, as if nobody had replied.
fn end_by(ended: Result<Option<AskEnd>, AskFault>, fault: Option<io::Error>) -> io::Result<AskEnd>
    ensures { IfOk result (λ end. orders.IsEndOf ended end) }
{
    match ended {
        Ok(Some(AskEnd::Lost)) => Err(why_lost(fault)),
        Ok(Some(end)) => Ok(end),
        Ok(None) => Ok(AskEnd::Silent),
        Err(_) => Err(io::Error::from(ErrorKind::OutOfMemory)),
    }
}

// Asks it from these sockets, of which there is one.
fn ask_from<R: Net + Clock + AllocGlobal>(
    rt: &R,
    question: &Question<'_>,
    sockets: &mut [UdpSocket],
) -> io::Result<AskEnd>
    ensures { IfOk result (λ end. orders.EndedSo question.now end) }
{
    let mut ears = NetEars::steady(rt, rt, sockets)?;
    let mut post = SocketPost::new(ears.sockets());
    let ended = ask(rt.alloc(), question, &mut ears, &mut post);
    let fault = post.take_fault();
    drop(post);
    drop(ears);
    end_by(ended, fault)
}

// Asks it from a socket of its own: how it ended; else why there is no socket, or nothing was sent.
fn ask_once<R: Net + Clock + AllocGlobal>(rt: &R, question: &Question<'_>) -> io::Result<AskEnd>
    ensures { IfOk result (λ end. orders.EndedSo question.now end) }
{
    let mut sockets = connected(rt, home(question.port))?;
    let end = ask_from(rt, question, &mut sockets);
    drop(sockets);
    end
}

// Where a question is asked.
trait Asker {
    // All that was asked so far, in order; None for one that does not show it.
    ghost asked: { Self → Option (List orders.Asking) };

    // Asks it, once: how it ended; else why there is no socket, or nothing was sent.
    fn ask(&mut self, question: &Question<'_>) -> io::Result<AskEnd>
        ensures ended { IfOk result (λ end. orders.EndedSo question.now end) }
        ensures asked { Grew (asked self.old) (orders.asking_of question.now ∷ []) (asked self.new) };
}

// Asks from a socket for each question. It shows nothing of what was asked.
#[derive(Drop)]
struct NetAsker<'a, R> {
    rt: &'a R,
}

impl<R: Net + Clock + AllocGlobal> Asker for NetAsker<'_, R> {
    ghost asked = { λ _. None };

    fn ask(&mut self, question: &Question<'_>) -> io::Result<AskEnd> {
        ask_once(self.rt, question)
    }
}

// The place, if this is the status.
fn back_in(end: &AskEnd) -> Option<WayBack>
    ensures { result ≡ orders.back_in end.now }
{
    match end {
        AskEnd::Replied(Replied::Status(status)) => Some(WayBack::to(&status.place)),
        AskEnd::Replied(Replied::Reply { .. }) => None,
        AskEnd::Nobody | AskEnd::Silent | AskEnd::Lost => None,
    }
}

// The text of a name, if there is one.
fn text_of(name: &Option<AskerName>) -> Option<&[u8]>
    ensures { is_some result ≡ is_some name.now }
{
    match name {
        Some(name) => Some(name.text()),
        None => None,
    }
}

// How to go back to the place that the controller at this port says; none if it does not say it.
fn back_at<A: Asker>(asker: &mut A, port: u16) -> Option<WayBack>
    ensures said { IfSome result (λ way. orders.IsBackAt port way) }
    ensures asked { Grew (A.asked asker.old) (orders.status_at port ∷ []) (A.asked asker.new) }
{
    let question = Question {
        order: DeskCommand::Status,
        others: &[],
        name: None,
        port,
    };
    match asker.ask(&question) {
        Ok(end) => back_in(&end),
        Err(_) => None,
    }
}

// How to go back to the place before a move; none if nothing moves, or nobody says the place.
#[tactic(auto, using(cue_machine::proofs::LivingLemmas::grew_none))]
fn back_before<A: Asker>(asker: &mut A, question: &Question<'_>) -> Option<WayBack>
    ensures said { orders.IsBackBefore question.now result }
    ensures asked { Grew (A.asked asker.old) (orders.first_for question.now) (A.asked asker.new) }
{
    if is_move(&question.order) {
        back_at(asker, question.port)
    } else {
        None
    }
}

// Asks one thing of the controller, once, and says in words what it replied, within a second. After a move it says how
// to go back: so the place is asked before it, and nothing else is asked.
#[tactic(auto, using(cue_machine::proofs::LivingLemmas::grew_both))]
fn carry_question<R: Eprint, A: Asker, W: Write>(
    rt: &R,
    asker: &mut A,
    question: &Question<'_>,
    writer: &mut W,
) -> Result<(), Ending>
    ensures carried { orders.Carried question.now result (W.contents writer.old) (W.contents writer.new) }
    ensures asked { Grew (A.asked asker.old) (orders.first_for question.now ++ orders.asking_of question.now ∷ [])
        (A.asked asker.new) }
{
    let before = back_before(asker, question);
    match asker.ask(question) {
        Ok(end) => tell_end(rt, question, &end, before, writer),
        Err(why) => {
            say(rt, format_args!("no socket: {why}"));
            Err(Ending::Failed)
        }
    }
}

/// Asks what was typed of the controller, once, and says in words what it replied, within a second; a cue is stood by
/// with these others. Who asks is said first, if there is a name. After a move it says how to go back.
pub fn carry_order<R: Net + Clock + Eprint + AllocGlobal, W: Write>(
    rt: &R,
    order: &DeskCommand,
    others: &[CueNo],
    port: Option<u16>,
    name: &Option<AskerName>,
    writer: &mut W,
) -> Result<(), Ending>
    ensures { orders.CarriedTyped order.now others.now port name.now result (W.contents writer.old)
        (W.contents writer.new) }
{
    let order = *order;
    let question = Question {
        order,
        others,
        name: text_of(name),
        port: controller_port(port, None),
    };
    let mut asker = NetAsker { rt };
    carry_question(rt, &mut asker, &question, writer)
}
