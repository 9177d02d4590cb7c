//! The post of a load: datagrams by its sockets, and the copy of the store beside the show file.
ghost use Rattle.std.specs.Prelude.{IfOk, IfSome, IsSomeAnd, IsTrue, None, OnOk};
ghost use Rattle.cue_load_words.specs.Copies.{IsBeside, is_kept};

use crate::copying::keep_beside;
use cue_edge_run::SocketPost;
use cue_load_words::{Kept, went_out};
use cue_machine::{Output, Post, PostFault};
use mio::net::UdpSocket;
use std::fs::{File, Files};
use std::io;

/// The post of a load. It shows nothing of what went out.
#[derive(Drop)]
pub struct LoadPost<'a, R> {
    rt: &'a R,
    path: &'a str,
    sockets: SocketPost<'a>,
    kept: Option<io::Result<Kept>>,
}

impl<'a, R: Files<File = File> + AllocGlobal> LoadPost<'a, R> {
    /// By these sockets, and beside the show file of this path.
    pub fn new(rt: &'a R, path: &'a str, sockets: &'a [UdpSocket]) -> LoadPost<'a, R> {
        LoadPost {
            rt,
            path,
            sockets: SocketPost::new(sockets),
            kept: None,
        }
    }

    /// What became of the copy, once, if it went out.
    pub fn take_kept(&mut self) -> Option<io::Result<Kept>> {
        self.kept.take()
    }

    // Keeps the copy. It went out only if it stands in a file.
    fn keep(&mut self, text: &[u8]) -> Result<(), PostFault>
        ensures kept { OnOk result (IsSomeAnd self.new.kept (λ kept. IsTrue (is_kept kept))) }
        ensures beside { IfSome self.new.kept (λ kept. IfOk kept (λ kept. IsBeside self.old.path.now kept)) }
    {
        let kept = keep_beside(self.rt, self.path, text);
        let went = went_out(&kept);
        self.kept = Some(kept);
        went
    }
}

impl<'a, R: Files<File = File> + AllocGlobal> Post for LoadPost<'a, R> {
    ghost left = { λ _. None };

    fn post(&mut self, output: Output, bytes: &[u8]) -> Result<(), PostFault> {
        match output {
            Output::Replace => self.keep(bytes),
            Output::Send { .. } | Output::Print | Output::Say => self.sockets.post(output, bytes),
        }
    }
}
