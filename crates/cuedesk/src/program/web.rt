//! The command `web`: the board with buttons, served to a browser on this machine.
ghost use Rattle.std.specs.Prelude.{◌≡◌};
ghost use Rattle.cue_web.specs.Serving.{OnlyAsked};

mod keeping;

use super::locking::lock_word;
use super::marks::MarksFile;
use super::opening::open_desk;
use super::renewing::{Begun, Renewal, WatchedFile, begin};
use super::sign::{SignWatch, sign_of};
use cue_desk::ending::Ending;
use cue_desk_line::{PageUse, Web};
use cue_desk_run::{Desk, Sources};
use cue_request::identity::{PageIdentity, Purpose};
use cue_saying::{failed, print, say, say_fault};
use cue_show_file::Group;
use cue_web::{Beside, Connections, Pages};
use hex::encode;
pub use keeping::{devices_path, hear_devices};
use keeping::{keep_all, say_loss};
use std::alloc::Global;
use std::fs::{File, Files};
use std::io::{self, Eprint, Write};
use std::net::Net;
use std::random::RandomSource;
use std::time::Clock;

/// How long a round waits at most, in milliseconds.
const PAUSE: u64 = 20;

/// How long a round may last, in milliseconds, without a look at the world before who presses is heard.
const HELD_UP: u64 = 250;

/// How many bytes are drawn for the token.
const TOKEN_BYTES: usize = 16;

/// What serves a page.
#[derive(Drop)]
struct Server<'a, R> {
    rt: &'a R,
    desk: Desk<'a, R>,
    pages: Pages<'a>,
    watch: Option<WatchedFile<'a>>,
    sign: Option<SignWatch>,
    marks: Option<MarksFile<'a>>,
    // When the last round began.
    last: u64,
}

// The token of this run, or its name.
fn draw_token<R: RandomSource + Eprint + AllocGlobal>(rt: &R) -> Result<String, Ending> {
    let mut bytes = [0; TOKEN_BYTES];
    if rt.fill_bytes(&mut bytes).is_err() {
        say(rt, "the system gives no random bytes for the token");
        return Err(Ending::Failed);
    }
    Ok(encode(rt.alloc(), &bytes)?)
}

impl<R: Files<File = File> + Net + Clock + Eprint + AllocGlobal> Server<'_, R> {
    // Looks at the show file, and shows it if it is new. If memory is short, what is told of it stays.
    fn renew(&mut self) -> io::Result<()>
        ensures desk { self.new.desk ≡ self.old.desk }
        ensures identity { self.new.pages.identity ≡ self.old.pages.identity }
        ensures guard { self.new.pages.guard ≡ self.old.pages.guard }
    {
        let Some(watch) = &mut self.watch else {
            return Ok(());
        };
        let Renewal { file, told } = watch.renew(self.rt, &self.desk)?;
        if let Some(file) = file {
            self.pages.put_file(file);
        }
        if let Ok(told) = told {
            self.pages.tell(told);
        }
        Ok(())
    }

    // Writes the mark down that was pressed, if one was. If it cannot be written, that is said, and the page finds that
    // it is not there.
    fn write_mark(&mut self)
        ensures desk { self.new.desk ≡ self.old.desk }
        ensures identity { self.new.pages.identity ≡ self.old.pages.identity }
        ensures guard { self.new.pages.guard ≡ self.old.pages.guard }
    {
        let Some(curtain) = self.pages.take_mark() else {
            return;
        };
        let Some(marks) = &mut self.marks else {
            return;
        };
        if let Err(why) = marks.mark(self.rt, curtain) {
            say(
                self.rt,
                format_args!("the mark cannot be written down: {why}"),
            );
        }
    }

    // Looks for the sign of a rehearsal, and at the marks.
    fn look_beside(&mut self) -> io::Result<()>
        ensures desk { self.new.desk ≡ self.old.desk }
        ensures identity { self.new.pages.identity ≡ self.old.pages.identity }
        ensures guard { self.new.pages.guard ≡ self.old.pages.guard }
    {
        let now = self.desk.now()?;
        if let Some(sign) = &mut self.sign {
            self.pages.show_rehearsal(sign.look(self.rt, now));
        }
        if let Some(marks) = &mut self.marks {
            if let Some(all) = marks.fresh(self.rt, now) {
                self.pages.put_marks(all);
            }
        }
        Ok(())
    }

    // Looks at the world first, if this program was held up: what it knows is old, and a page would be told that it is
    // of now.
    #[tactic(auto, using(cue_web::proofs::ServeLemmas::asked_looks, cue_web::proofs::ServeLemmas::asked_none))]
    fn wake(&mut self) -> io::Result<()>
        ensures { OnlyAsked self.old.pages.identity self.new.pages.identity self.old.pages.guard self.new.pages.guard
            self.old.desk.station self.new.desk.station }
    {
        let now = self.desk.now()?;
        let is_late = now.saturating_sub(self.last) > HELD_UP;
        self.last = now;
        if is_late {
            self.desk.round()?;
        }
        Ok(())
    }

    // Hears who presses. Answers whether more of them wait.
    #[tactic(auto, using(cue_web::proofs::ServeLemmas::asked_none))]
    fn hear(&mut self, connections: &mut Connections) -> io::Result<bool>
        ensures { OnlyAsked self.old.pages.identity self.new.pages.identity self.old.pages.guard self.new.pages.guard
            self.old.desk.station self.new.desk.station }
    {
        let alloc = self.rt.alloc();
        let now = self.desk.now()?;
        let is_waited_for = connections.admit(alloc, self.desk.registry(), now);
        connections.serve(alloc, &mut self.desk, &mut self.pages, now);
        Ok(is_waited_for)
    }

    // Looks at the world, and at the files beside it.
    #[tactic(auto, using(cue_web::proofs::ServeLemmas::asked_looks))]
    fn look(&mut self) -> io::Result<()>
        ensures { OnlyAsked self.old.pages.identity self.new.pages.identity self.old.pages.guard self.new.pages.guard
            self.old.desk.station self.new.desk.station }
    {
        self.desk.round()?;
        self.renew()?;
        self.write_mark();
        self.look_beside()
    }

    // One round: who presses is heard first. Answers whether more of them wait.
    fn round(&mut self, connections: &mut Connections) -> io::Result<bool>
        ensures { OnlyAsked self.old.pages.identity self.new.pages.identity self.old.pages.guard self.new.pages.guard
            self.old.desk.station self.new.desk.station }
    {
        self.wake()?;
        let is_waited_for = self.hear(connections)?;
        self.look()?;
        Ok(is_waited_for)
    }

    // Says what could not be sent or kept, each once.
    fn say_losses(&mut self)
        ensures station { self.new.desk.station ≡ self.old.desk.station }
        ensures identity { self.new.pages.identity ≡ self.old.pages.identity }
        ensures guard { self.new.pages.guard ≡ self.old.pages.guard }
    {
        say_fault(self.rt, self.desk.take_fault());
        say_loss(self.rt, "the alarms", self.desk.take_loss());
        say_loss(self.rt, "where devices stand", self.desk.take_place_loss());
    }

    // One round, and what went wrong in it; then it waits until something comes.
    #[tactic(auto, using(cue_web::proofs::ServeLemmas::asked_then, cue_web::proofs::ServeLemmas::asked_same))]
    fn go_on(&mut self, connections: &mut Connections) -> io::Result<()>
        ensures { OnlyAsked self.old.pages.identity self.new.pages.identity self.old.pages.guard self.new.pages.guard
            self.old.desk.station self.new.desk.station }
    {
        let is_waited_for = self.round(connections)?;
        self.say_losses();
        self.desk.wait(if is_waited_for { 0 } else { PAUSE })
    }

    // Serves until a signal ends it. Each press that the desk hears was asked by a request of our own page, and judged by
    // the lock that the request before left.
    #[tactic(auto, using(cue_web::proofs::ServeLemmas::asked_then, cue_web::proofs::ServeLemmas::asked_none))]
    fn serve(&mut self, connections: &mut Connections) -> Result<(), Ending>
        ensures { OnlyAsked self.old.pages.identity self.new.pages.identity self.old.pages.guard self.new.pages.guard
            self.old.desk.station self.new.desk.station }
    {
        for _ in 0..u64::MAX {
            if let Err(why) = self.go_on(connections) {
                return Err(failed(self.rt, &why));
            }
        }
        Ok(())
    }
}

// Listens at this port; else why it cannot is said.
fn listen<R: Files<File = File> + Net + Clock + Eprint + AllocGlobal>(
    rt: &R,
    desk: &Desk<'_, R>,
    port: u16,
) -> Result<Connections, Ending> {
    match Connections::new(rt, desk.registry(), port) {
        Ok(connections) => Ok(connections),
        Err(why) => {
            say(rt, format_args!("no page at port {port}: {why}"));
            Err(Ending::Failed)
        }
    }
}

// Says where the page is.
fn say_where<W: Write>(alloc: Global, port: u16, writer: &mut W) -> Result<(), Ending> {
    let text = format!(in alloc; "the page is at http://127.0.0.1:{port}/; Ctrl-C ends it\n")?;
    print(writer, text.as_str())
}

// What the page is for; the word of its lock, if it has one, is this.
fn purpose_of<'a>(page_use: &'a PageUse, word: Option<&'a str>) -> Purpose<'a> {
    match page_use {
        PageUse::Plays(_) => Purpose::Plays(word.map(|word| word.as_bytes())),
        PageUse::Shows(name) => Purpose::Shows(name.as_deref().map(|name| name.as_bytes())),
    }
}

// Listens at this port, says so, and serves.
fn serve_at<R: Files<File = File> + Net + Clock + Eprint + AllocGlobal, W: Write>(
    server: &mut Server<'_, R>,
    port: u16,
    writer: &mut W,
) -> Result<(), Ending> {
    let mut connections = listen(server.rt, &server.desk, port)?;
    say_where(server.rt.alloc(), port, writer)?;
    let served = server.serve(&mut connections);
    drop(connections);
    served
}

// The server of a page of this identity, over a desk that begins with this show file.
fn open_server<'a, R: Files<File = File> + Net + Clock + Eprint + AllocGlobal>(
    rt: &'a R,
    web: &'a Web,
    (identity, token, run): (PageIdentity<'a>, &str, String),
    sign: Option<SignWatch>,
    begun: Begun<'a>,
    together: &'a [Group],
) -> Result<Server<'a, R>, Ending> {
    let sources = Sources {
        dir: web.dir.as_str(),
        port: begun.port,
        relay: web.relay.as_deref(),
        name: web.name,
        together,
    };
    let Begun { file, watch, port } = begun;
    let beside = Beside { file, port, run };
    let pages = Pages::new(rt.alloc(), identity, token, beside)?;
    match open_desk(rt, &sources) {
        Ok(desk) => Ok(Server {
            rt,
            desk,
            pages,
            watch,
            sign,
            marks: None,
            last: 0,
        }),
        Err(ending) => {
            drop(pages);
            drop(watch);
            drop(sign);
            Err(ending)
        }
    }
}

/// The command `web`: until a signal ends it. It listens at 127.0.0.1 alone, and sends one message for each press of a
/// button; by itself it asks for the status alone. A page that only shows sends nothing else.
pub fn serve_page<
    'a,
    R: Files<File = File> + Net + Clock + RandomSource + Eprint + AllocGlobal,
    W: Write,
>(rt: &'a R, web: &'a Web, writer: &mut W) -> Result<(), Ending> {
    let (token, run) = (draw_token(rt)?, draw_token(rt)?);
    let word = lock_word(rt, &web.page_use)?;
    let places = devices_path(rt.alloc(), web.alarms.as_deref())?;
    let sign = sign_of(rt.alloc(), web.file.as_deref())?;
    let (begun, together) = begin(rt, web.file.as_deref(), web.port)?;
    let identity = PageIdentity {
        port: web.http,
        token: token.as_bytes(),
        purpose: purpose_of(&web.page_use, word.as_deref()),
    };
    let page = (identity, token.as_str(), run);
    let mut server = open_server(rt, web, page, sign, begun, &together)?;
    let served = match keep_all(web, places.as_deref(), &mut server) {
        Ok(()) => serve_at(&mut server, web.http, writer),
        Err(ending) => Err(ending),
    };
    drop(server);
    served
}
