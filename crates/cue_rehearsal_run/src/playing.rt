//! The devices of a show file at their sockets.
ghost use Rattle.std.specs.Prelude.{◌≡◌, [], IfErr, IfOk, length};
ghost use Rattle.cue_desk.specs.declared.ending.Ending.TheVariants.{Failed};
ghost use Rattle.cue_rehearsal_plan.specs.Unknown.{unknown_devices};
ghost use Rattle.cue_rehearsal_plan.specs.Words.{ending_of};
ghost use Rattle.std.specs.Vec.{vec_len};

use cue_desk::ending::Ending;
use cue_edge_run::{NetEars, NetPost, bind};
use cue_machine::Why;
use cue_rehearsal::Plan;
use cue_rehearsal_machine::{RehearsalMachine, Role, run};
use cue_rehearsal_plan::{addresses_of, ending_of, plays_line, roles_of, why_words};
use cue_saying::{print, say};
use cue_show_file::ShowFile;
use mio::net::UdpSocket;
use std::alloc::AllocError;
use std::fs::{File, Files};
use std::io::{Eprint, Write};
use std::net::Net;
use std::time::Clock;

// A socket for each, in their order; if there is none at a port, why is on standard error.
fn bind_all<R: Net + Eprint + AllocGlobal>(rt: &R, roles: &[Role]) -> Result<Vec<UdpSocket>, Ending>
    ensures one { IfOk result (λ sockets. vec_len sockets ≡ length roles.now) }
    ensures failed { IfErr result (λ ending. ending ≡ Failed) }
{
    let addresses = addresses_of(rt.alloc(), roles)?;
    match bind(rt, &addresses) {
        Ok(sockets) => Ok(sockets),
        Err(fault) => {
            let port = fault.address.port;
            say(rt, format_args!("no socket at port {port}: {}", fault.why));
            Err(Ending::Failed)
        }
    }
}

// How the rehearsal ended, which is said.
fn end<R: Eprint>(rt: &R, why: Why) -> Ending
    ensures { result ≡ ending_of why }
{
    if let Some(words) = why_words(why) {
        say(rt, words);
    }
    ending_of(why)
}

// Plays at these sockets, until the program is ended: why it ended.
fn play_at<R: Files<File = File> + Net + Clock + Eprint + AllocGlobal, W: Write>(
    rt: &R,
    machine: &mut RehearsalMachine,
    sockets: &mut [UdpSocket],
    writer: &mut W,
) -> Result<Why, AllocError> {
    let Ok(mut ears) = NetEars::steady(rt, rt, sockets) else {
        return Ok(Why::Ears);
    };
    let mut post = NetPost::new(rt, ears.sockets(), None, writer)?;
    let ended = run(rt.alloc(), machine, &mut ears, &mut post, u64::MAX)?;
    Ok(ended.why)
}

/// Plays every device of the file by this plan, until the program is ended. The draws come from the seed.
pub fn play<R: Files<File = File> + Net + Clock + Eprint + AllocGlobal, W: Write>(
    rt: &R,
    file: &ShowFile,
    plan: &Plan,
    seed: u64,
    writer: &mut W,
) -> Result<(), Ending>
    requires { unknown_devices file.now plan.now ≡ [] }
{
    let alloc = rt.alloc();
    let roles = roles_of(alloc, file, plan)?;
    let mut sockets = bind_all(rt, &roles)?;
    print(writer, plays_line(alloc, sockets.len())?.as_str())?;
    let mut machine = RehearsalMachine::new(alloc, &roles, plan.loss, plan.spread, seed)?;
    let why = play_at(rt, &mut machine, &mut sockets, writer)?;
    Err(end(rt, why))
}
