//! What a desk keeps of the show file of its start.
ghost use Rattle.std.specs.Prelude.{◌≡◌, ◌≢◌, ◌↔◌, IfOk, IsTrue};
ghost use Rattle.cue_file_news.specs.Keeping as keeping;

use cue_desk::ports::controller_port;
use cue_relay::Route;
use cue_show_file::{ShowFile, routes};
use std::alloc::{AllocError, Global};

/// What a desk keeps of the show file of its start, as long as it runs.
#[derive(Debug, Drop, PartialEq, Eq)]
pub struct Kept {
    /// The port at which it asks the controller.
    pub port: u16,
    /// Where this machine is on the stage's network, and the devices there.
    pub listen: Option<u32>,
    pub routes: Vec<Route>,
}

/// What of a new show file counts only from the next start.
#[derive(Clone, Copy, Debug, PartialEq, Eq)]
pub enum Later {
    Nothing,
    Port,
    Relay,
    Both,
}

/// What a desk keeps that starts with this file. `said` is the port of the controller that the command line or the
/// environment says.
pub fn kept_of(alloc: Global, said: Option<u16>, file: &ShowFile) -> Result<Kept, AllocError>
    ensures { IfOk result (λ kept. keeping.kept_in kept ≡ keeping.kept_of said file.now) }
{
    let routes = routes(alloc, &file.devices)?;
    Ok(Kept {
        port: controller_port(said, file.port),
        listen: file.listen,
        routes,
    })
}

// Whether the port is another one.
fn is_other_port(kept: &Kept, fresh: &Kept) -> bool
    ensures { IsTrue result ↔ (kept.now.port ≢ fresh.now.port) }
{
    kept.port != fresh.port
}

// Whether this machine is elsewhere on the stage's network.
fn is_elsewhere(kept: &Kept, fresh: &Kept) -> bool
    ensures { IsTrue result ↔ (kept.now.listen ≢ fresh.now.listen) }
{
    kept.listen != fresh.listen
}

// Whether these are other routes.
fn are_others(kept: &[Route], fresh: &[Route]) -> bool
    ensures { IsTrue result ↔ (kept.now ≢ fresh.now) }
{
    kept != fresh
}

// Whether the relay is another one.
fn is_other_relay(kept: &Kept, fresh: &Kept) -> bool
    ensures { IsTrue result ↔ keeping.IsOtherRelay (keeping.kept_in kept.now) (keeping.kept_in fresh.now) }
{
    is_elsewhere(kept, fresh) || are_others(&kept.routes, &fresh.routes)
}

// What counts only from the next start.
fn later_by(is_port: bool, is_relay: bool) -> Later
    ensures port { keeping.tells_port result ≡ is_port }
    ensures relay { keeping.tells_relay result ≡ is_relay }
{
    match (is_port, is_relay) {
        (false, false) => Later::Nothing,
        (true, false) => Later::Port,
        (false, true) => Later::Relay,
        (true, true) => Later::Both,
    }
}

/// What of a new show file, whose desk would keep this, counts only from the next start of a desk that keeps something
/// else.
pub fn later_of(kept: &Kept, fresh: &Kept) -> Later
    ensures { keeping.IsLater (keeping.kept_in kept.now) (keeping.kept_in fresh.now) result }
{
    later_by(is_other_port(kept, fresh), is_other_relay(kept, fresh))
}
