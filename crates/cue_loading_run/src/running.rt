//! The lives of machines, at sockets that are connected to the controller's port.
ghost use Rattle.std.specs.Prelude.{OnOk};
ghost use Rattle.cue_loading_run.specs.Lived.{WasCarriedOut};

use crate::loading::Loading;
use crate::posting::LoadPost;
use cue_ask_machine::home;
use cue_desk::ending::Ending;
use cue_edge_run::{NetEars, SocketPost, connected};
use cue_load_machine::{LoadMachine, SOCKETS, advance};
use cue_load_words::{Kept, Progress, Said, ended_by};
use cue_machine::{Room, Why};
use mio::net::UdpSocket;
use std::fs::{File, Files};
use std::io::{self, Eprint, Write};
use std::net::Net;
use std::time::Clock;

/// The most bytes of a datagram that are read. The longest datagram has fewer, so one that is too long is seen to be
/// so.
const MAX_RECEIVED: usize = 4_100;

/// For how many bytes of an output there is room at first. A turn of a load has one output at most.
const BYTES: usize = 4_096;

// All sockets of a load, connected to the controller at this port.
fn connect_all<R: Net + AllocGlobal>(rt: &R, port: u16) -> io::Result<Vec<UdpSocket>> {
    let mut sockets = Vec::with_capacity(rt.alloc(), SOCKETS)?;
    for _ in 0..SOCKETS {
        let mut one = connected(rt, home(port))?;
        if let Some(socket) = one.pop() {
            sockets.push(socket)?;
        }
    }
    Ok(sockets)
}

impl<'a, R: Net + Clock + Eprint + AllocGlobal> Loading<'a, R> {
    // Sockets for a life; if there are none, why is said.
    fn open_sockets(&self) -> Result<Vec<UdpSocket>, Ending> {
        match connect_all(self.rt, self.port) {
            Ok(sockets) => Ok(sockets),
            Err(why) => {
                self.say_why(&Said::NoSocket, &why);
                Err(Ending::Failed)
            }
        }
    }

    // Lets a machine live at these sockets that writes no copy, until it is over.
    fn ask_at(&self, machine: &mut LoadMachine, sockets: &mut [UdpSocket]) -> Result<(), Ending>
        ensures { OnOk result (WasCarriedOut machine.old machine.new) }
    {
        let Ok(mut ears) = NetEars::steady(self.rt, self.rt, sockets) else {
            return Err(Ending::Failed);
        };
        let mut post = SocketPost::new(ears.sockets());
        let mut room = Room::new(self.rt.alloc(), MAX_RECEIVED, 1, BYTES)?;
        let ended = advance(machine, &mut ears, &mut post, &mut room, u64::MAX);
        ended_by(ended.why)
    }

    /// Lets a machine live that writes no copy, until it is over.
    pub fn ask(&self, machine: &mut LoadMachine) -> Result<(), Ending>
        ensures { OnOk result (WasCarriedOut machine.old machine.new) }
    {
        let mut sockets = self.open_sockets()?;
        let asked = self.ask_at(machine, &mut sockets);
        drop(sockets);
        asked
    }
}

impl<'a, R: Files<File = File> + Net + Clock + Eprint + AllocGlobal> Loading<'a, R> {
    // Says what became of the copy, if it went out in this turn, and how to take the load back; and shows how far the
    // machine has come.
    fn tell_turn<W: Write>(
        &self,
        machine: &LoadMachine,
        kept: Option<io::Result<Kept>>,
        progress: &mut Progress<'_, W>,
    ) -> Result<(), Ending> {
        match kept {
            Some(Ok(Kept::In(name))) => {
                progress.print_kept(name.as_str(), self.what.dir.unwrap_or(""))?;
            }
            Some(Ok(Kept::Full)) => self.say(&Said::NoName),
            Some(Err(why)) => self.say_why(&Said::NotKept, &why),
            None => {}
        }
        progress.reach(machine.done())
    }

    // Lets a machine live at these sockets, until it is over. It is told on the way what it has done.
    fn carry_out_at<W: Write>(
        &self,
        machine: &mut LoadMachine,
        sockets: &mut [UdpSocket],
        progress: &mut Progress<'_, W>,
    ) -> Result<(), Ending>
        ensures { OnOk result (WasCarriedOut machine.old machine.new) }
    {
        let Ok(mut ears) = NetEars::steady(self.rt, self.rt, sockets) else {
            return Err(Ending::Failed);
        };
        let mut post = LoadPost::new(self.rt, self.what.path, ears.sockets());
        let mut room = Room::new(self.rt.alloc(), MAX_RECEIVED, 1, BYTES)?;
        for _ in 0..u64::MAX {
            let ended = advance(machine, &mut ears, &mut post, &mut room, 1);
            self.tell_turn(machine, post.take_kept(), progress)?;
            if ended.why != Why::Turns {
                return ended_by(ended.why);
            }
        }
        Err(Ending::Failed)
    }

    /// Lets a machine live until it is over. It is told on the way what it has done.
    pub fn carry_out<W: Write>(
        &self,
        machine: &mut LoadMachine,
        progress: &mut Progress<'_, W>,
    ) -> Result<(), Ending>
        ensures { OnOk result (WasCarriedOut machine.old machine.new) }
    {
        let mut sockets = self.open_sockets()?;
        let carried = self.carry_out_at(machine, &mut sockets, progress);
        drop(sockets);
        carried
    }
}
