//! A post over sockets, standard output, standard error, and the program's file.
ghost use Rattle.std.specs.Prelude.{None};

use crate::replacing::Replaced;
use crate::sending::send_by;
use cue_machine::{Output, Post, PostFault};
use mio::net::UdpSocket;
use std::alloc::AllocError;
use std::fs::{File, Files};
use std::io::{self, Eprint, ErrorKind, Write};
use std::str;

/// The post of a program. It shows nothing of what went out.
#[derive(Drop)]
pub struct NetPost<'a, R, W: Write> {
    rt: &'a R,
    sockets: &'a [UdpSocket],
    file: Option<Replaced<'a>>,
    writer: &'a mut W,
}

impl<'a, R: Files<File = File> + Eprint + AllocGlobal, W: Write> NetPost<'a, R, W> {
    /// By these sockets; what is printed goes to this writer, and what is replaced is this file.
    pub fn new(
        rt: &'a R,
        sockets: &'a [UdpSocket],
        file: Option<&'a str>,
        writer: &'a mut W,
    ) -> Result<NetPost<'a, R, W>, AllocError> {
        let file = match file {
            Some(path) => Some(Replaced::new(rt.alloc(), path)?),
            None => None,
        };
        Ok(NetPost {
            rt,
            sockets,
            file,
            writer,
        })
    }

    // Prints, and sees that all of it left.
    fn print(&mut self, bytes: &[u8]) -> io::Result<()> {
        self.writer.write_all(bytes)?;
        self.writer.flush()
    }

    // Says it on standard error.
    fn say(&self, bytes: &[u8]) -> io::Result<()> {
        match str::from_utf8(bytes) {
            Ok(text) => self.rt.eprint(text),
            Err(_) => Err(io::Error::from(ErrorKind::InvalidData)),
        }
    }

    // Has the file hold this, if there is one.
    fn replace(&self, bytes: &[u8]) -> io::Result<()> {
        match &self.file {
            Some(file) => file.replace(self.rt, bytes),
            None => Err(io::Error::from(ErrorKind::NotFound)),
        }
    }
}

impl<'a, R: Files<File = File> + Eprint + AllocGlobal, W: Write> Post for NetPost<'a, R, W> {
    ghost left = { λ _. None };

    fn post(&mut self, output: Output, bytes: &[u8]) -> Result<(), PostFault> {
        let done = match output {
            Output::Send { by, to } => send_by(self.sockets, by, to, bytes),
            Output::Print => self.print(bytes),
            Output::Say => self.say(bytes),
            Output::Replace => self.replace(bytes),
        };
        match done {
            Ok(()) => Ok(()),
            Err(_) => Err(PostFault),
        }
    }
}
