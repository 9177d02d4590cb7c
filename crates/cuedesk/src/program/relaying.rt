//! The command `relay`: it stands between the controller and devices that are on the stage's network. What is planned
//! and said is made by `cue_relay_words`; here sockets are opened and held.
ghost use Rattle.std.specs.Prelude.{◌≡◌, ◌++◌, IfErr, IfOk, OnOk, codes, length};
ghost use Rattle.std.specs.Io.KnownBytes.{Appends};
ghost use Rattle.std.specs.Vec.{vec_len};
ghost use Rattle.cue_relay_words.specs.Planning.{IsPlanned};
ghost use Rattle.cue_relay_words.specs.Words.{begun_words};
ghost use Rattle.cuedesk.specs.Relaying as relaying;

use cue_desk::ending::Ending;
use cue_edge_run::{NetEars, NetPost, bind, is_in_memory};
use cue_files_run::read_file;
use cue_machine::{Address, Why};
use cue_relay::Relay;
use cue_relay_machine::{RelayMachine, addresses, run};
use cue_relay_words::{Begun, DiskWords, LackWords, Plan, PlanFault, ended_words, plan_of};
use cue_saying::{print, say};
use cue_show_file::ShowFile;
use mio::net::UdpSocket;
use std::fs::{File, Files};
use std::io::{Eprint, Write};
use std::net::Net;
use std::time::Clock;

// How the command ends that has no plan.
fn ending_of(fault: &PlanFault) -> Ending
    ensures { result ≡ relaying.ending_of fault.now }
{
    match fault {
        PlanFault::Lacks(_) => Ending::Refused,
        PlanFault::Memory => Ending::Failed,
    }
}

// Says what the file lacks. Answers how the command ends.
fn refused<R: Eprint>(rt: &R, path: &str, fault: PlanFault) -> Ending
    ensures { result ≡ relaying.ending_of fault }
{
    let ending = ending_of(&fault);
    if let PlanFault::Lacks(lack) = fault {
        say(rt, LackWords { path, lack });
    }
    ending
}

// What the relay stands between, by this show file; else what the file lacks is on standard error.
fn planned<R: Eprint + AllocGlobal>(
    rt: &R,
    path: &str,
    said: Option<u16>,
    file: &ShowFile,
) -> Result<Plan, Ending>
    ensures planned { IfOk result (λ plan. IsPlanned said file.now plan) }
    ensures ended { IfErr result (λ ending. relaying.IsUnplanned file.now ending) }
{
    match plan_of(rt.alloc(), said, file) {
        Ok(plan) => Ok(plan),
        Err(fault) => Err(refused(rt, path, fault)),
    }
}

// What the relay has begun with.
fn begun_of(plan: &Plan) -> Begun
    ensures { result ≡ relaying.begun_of plan.now }
{
    Begun {
        controller: plan.controller,
        stage: plan.stage,
        count: plan.routes.len(),
    }
}

// What the relay stands between, in words.
fn say_begun<R: AllocGlobal, W: Write>(rt: &R, begun: Begun, writer: &mut W) -> Result<(), Ending>
    ensures { OnOk result (Appends (W.contents writer.old) (W.contents writer.new)
        (begun_words begun ++ codes "\n")) }
{
    let text = format!(in rt.alloc(); "{begun}\n")?;
    print(writer, text.as_str())
}

// Two sockets for each route; if there is none at an address, why is on standard error.
fn bind_at<R: Net + Eprint + AllocGlobal>(
    rt: &R,
    addresses: &[Address],
) -> Result<Vec<UdpSocket>, Ending>
    ensures { IfOk result (λ sockets. vec_len sockets ≡ length addresses.now) }
{
    match bind(rt, addresses) {
        Ok(sockets) => Ok(sockets),
        Err(fault) => {
            say(rt, format_args!("{}: {}", fault.address, fault.why));
            Err(Ending::Failed)
        }
    }
}

// The sockets of a plan, by their places.
fn bind_all<R: Net + Eprint + AllocGlobal>(rt: &R, plan: &Plan) -> Result<Vec<UdpSocket>, Ending>
    ensures { IfOk result (λ sockets. vec_len sockets ≡ length (relaying.addresses_of plan.now)) }
{
    let addresses = addresses(rt.alloc(), plan.controller.host, plan.stage, &plan.routes)?;
    bind_at(rt, &addresses)
}

// Relays what comes to these ears, until a signal ends it: it ends by itself only by a failure.
fn relay_from<R: Files<File = File> + Net + Clock + Eprint + AllocGlobal, W: Write>(
    rt: &R,
    plan: &Plan,
    ears: &mut NetEars<'_, R>,
    status: Option<&str>,
    writer: &mut W,
) -> Result<(), Ending>
    ensures { OnOk result ⊥ }
{
    let alloc = rt.alloc();
    say_begun(rt, begun_of(plan), writer)?;
    let relay = Relay {
        controller: plan.controller,
        routes: &plan.routes,
    };
    let mut machine = RelayMachine::new(alloc, relay, status, ears.now())?;
    let mut post = NetPost::new(rt, ears.sockets(), status, writer)?;
    let ended = match run(alloc, &mut machine, ears, &mut post, u64::MAX) {
        Ok(ended) => ended_words(ended.why),
        Err(_) => ended_words(Why::Memory),
    };
    drop(post);
    drop(machine);
    say(rt, ended);
    Err(Ending::Failed)
}

// Relays at these sockets, until a signal ends it.
fn relay_at<R: Files<File = File> + Net + Clock + Eprint + AllocGlobal, W: Write>(
    rt: &R,
    plan: &Plan,
    sockets: &mut [UdpSocket],
    status: Option<&str>,
    writer: &mut W,
) -> Result<(), Ending>
    ensures { OnOk result ⊥ }
{
    let Ok(mut ears) = NetEars::new(rt, rt, sockets) else {
        say(rt, "the sockets cannot be waited at");
        return Err(Ending::Failed);
    };
    let relayed = relay_from(rt, plan, &mut ears, status, writer);
    drop(ears);
    relayed
}

// Says that the status is on a disk, if it is: the relay writes it in its one thread.
fn say_disk<R: Files<File = File> + Eprint + AllocGlobal>(rt: &R, status: Option<&str>) {
    if let Some(path) = status {
        if !is_in_memory(rt, path) {
            say(rt, DiskWords { path });
        }
    }
}

// Reads the show file, and plans by it.
fn read_plan<R: Files<File = File> + Eprint + AllocGlobal>(
    rt: &R,
    path: &str,
    said: Option<u16>,
) -> Result<Plan, Ending> {
    let file = read_file(rt, path)?;
    let planned = planned(rt, path, said, &file);
    drop(file);
    planned
}

/// The command `relay`: until a signal ends it. By itself it ends only by a failure.
pub fn relay_devices<R: Files<File = File> + Net + Clock + Eprint + AllocGlobal, W: Write>(
    rt: &R,
    path: &str,
    port: Option<u16>,
    status: Option<&str>,
    writer: &mut W,
) -> Result<(), Ending>
    ensures { OnOk result ⊥ }
{
    let plan = read_plan(rt, path, port)?;
    let mut sockets = bind_all(rt, &plan)?;
    say_disk(rt, status);
    let relayed = relay_at(rt, &plan, &mut sockets, status, writer);
    drop(sockets);
    drop(plan);
    relayed
}
