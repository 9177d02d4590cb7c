//! What becomes of a command: the first line of its table that holds decides.
ghost use Rattle.std.specs.Prelude.{◌≡◌, ◌≢◌, ◌↔◌, ◌≤◌, [], IsTrue, IfOk, length};
ghost use Rattle.cue_core.specs.Judge.{is_fit, judgement_of};
ghost use Rattle.cue_core.specs.Steps.{are_acceptable};

mod answers;
mod attempts;
mod shows;
mod verdicts;

use crate::command::{Command, Verdict};
use crate::events::Events;
use crate::state::State;
use std::alloc::{AllocError, Global};
use verdicts::{known, refused};

/// Judges a command on a state, at the time `now` in milliseconds since 1970, from the port `from` of
/// this machine.
///
/// The events that come with the verdict are acceptable in turn. Only the parts of a new
/// cue take memory.
pub fn judge(
    alloc: Global,
    state: &State,
    now: u64,
    from: u16,
    command: &Command,
) -> Result<(Verdict, Events), AllocError>
    requires { IsTrue (is_fit command.now) }
    ensures table { IfOk result (λ r. r ≡ judgement_of state.now now from command.now) }
    ensures acceptable { IfOk result (λ r. IsTrue (are_acceptable state.now r.1)) }
    ensures few { IfOk result (λ r. length r.1 ≤ 2) }

    // What is made has an event, and what is known or refused has none.
    ensures made { IfOk result (λ r. (r.0 ≡ Verdict.Made) ↔ (r.1 ≢ [])) }
{
    // Called for its clause that the state keeps its rules.
    let _last = state.last_seq();
    judgement_of(alloc, state, now, from, command)
}

fn judgement_of(
    alloc: Global,
    state: &State,
    now: u64,
    from: u16,
    command: &Command,
) -> Result<(Verdict, Events), AllocError>
    ensures { IfOk result (λ r. r ≡ judgement_of state.now now from command.now) }
{
    Ok(match command {
        Command::Status => known(),
        Command::AddDevice(device, port) => shows::on_add_device(state, *device, *port),
        Command::AddCue(cue, parts) => return shows::on_add_cue(alloc, state, *cue, parts),
        Command::Standby(cue) => attempts::on_standby(state, now, *cue),
        Command::Go(cue) => attempts::on_go(state, *cue),
        Command::Cancel(cue) => attempts::on_cancel(state, *cue),
        Command::Goto(cue) => shows::on_goto(state, *cue),
        Command::RemoveCue(cue) => shows::on_remove_cue(state, *cue),
        Command::Reply(kind, device, seq) => answers::on_answer(state, from, *kind, *device, *seq),
        Command::Release(device) => attempts::on_release(state, *device),
        Command::RemoveDevice(device) => shows::on_remove_device(state, *device),
        Command::Bad(code) => refused(*code),
    })
}
