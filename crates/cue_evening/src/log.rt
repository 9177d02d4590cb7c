//! The log of the evening, as it looks on a run.
ghost use Rattle.std.specs.Prelude.{◌≡◌, None};

use crate::page::{Page, put_dated};
use crate::sent::Sent;
use crate::states::follow;
use crate::teller::Teller;
use crate::time::Time;
use crate::wire::LoggedWire;
use cue_core::{Event, State};
use cue_engine::{Account, Wire};
use cue_log_lines::{Line, Text, write};
use cue_run::Watch;
use std::alloc::Global;
use std::io::Eprint;
use std::time::Clock;

/// Says on standard error that a folder's show is ready at a port of this machine.
pub fn say_ready<R: Clock + Eprint>(rt: &R, alloc: Global, dir: &str, port: u16) {
    let line = Line::Ready {
        dir: Text::new(dir.as_bytes()),
        port,
    };
    if let (Some(time), Ok(line)) = (Time::now(rt), write(alloc, &line)) {
        let _ = put_dated(rt, alloc, time, &line);
    }
}

/// Writes the log of the evening. It reads the account of each input, and on a logged wire what left of it, and follows
/// the attempts. If inputs are committed together it writes what it writes of inputs that come one by one: it has a
/// state of its own, to which it lets the events of each input happen.
#[derive(Drop)]
pub struct EveningLog<'a, R: Clock + Eprint> {
    teller: Teller<Page<'a, R>>,
    /// The state after the input that was seen last; None before the first look, or if there was no memory for it.
    followed: Option<State>,
}

impl<'a, R: Clock + Eprint> EveningLog<'a, R> {
    /// It has not looked yet. The time to its first look begins here.
    pub fn new(rt: &'a R, alloc: Global) -> EveningLog<'a, R>
        ensures teller { result.teller.last ≡ None }
        ensures followed { result.followed ≡ None }
    {
        EveningLog {
            teller: Teller::new(alloc, Page::new(rt, alloc)),
            followed: None,
        }
    }
}

impl<'a, R: Clock + Eprint, W: Wire + Drop> Watch<LoggedWire<W>> for EveningLog<'a, R> {
    ghost seen = { λ _. None };

    fn look(
        &mut self,
        state: &State,
        batch: &[Event],
        account: Option<&Account>,
        wire: &mut LoggedWire<W>,
    ) {
        follow(&mut self.followed, state, batch);
        let seen = self.followed.as_ref().unwrap_or(state);
        self.teller
            .tell(seen, batch, Sent::of(account, wire.left()));
        wire.forget();
    }
}
