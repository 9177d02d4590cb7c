//! Which devices are relayed, and what a show file lacks for it.
ghost use Rattle.std.specs.Prelude.{◌≡◌, ◌⊎◌, IfErr, IfOk};
ghost use Rattle.cue_relay_words.specs.Planning as planning;

use cue_desk::ports::controller_port;
use cue_relay::{Address, Route};
use cue_show_file::{ShowFile, routes};
use std::alloc::{AllocError, Global};

/// The address 127.0.0.1, as one number.
const HOME: u32 = 0x7f00_0001;

/// What a show file lacks, so that nothing can be relayed.
#[derive(Clone, Copy, Debug, PartialEq, Eq)]
pub enum Lack {
    /// A device with an address.
    Device,
    /// A port of its own for each: two devices have this one.
    SharedPort(u16),
    /// Where this machine is on the stage's network.
    Listen,
}

/// Why there is no plan.
#[derive(Clone, Copy, Debug, PartialEq, Eq, Drop)]
pub enum PlanFault {
    Lacks(Lack),
    Memory,
}

impl From<AllocError> for PlanFault {
    ghost use Rattle.std.specs.Prelude.{◌≡◌};
    ghost use Rattle.cue_relay_words.specs.declared.planning.PlanFault.TheVariants.{Memory};

    ghost from_gives = { λ _ fault. fault ≡ Memory };

    fn from(_: AllocError) -> PlanFault {
        PlanFault::Memory
    }
}

/// What the relay stands between.
#[derive(Drop)]
pub struct Plan {
    /// The controller, on this machine.
    pub controller: Address,
    /// Where this machine is on the stage's network: the octets as one number.
    pub stage: u32,
    /// The devices that are relayed, in the order of the show file.
    pub routes: Vec<Route>,
}

// Whether one of these routes has the port.
fn has_port(port: u16, routes: &[Route]) -> bool
    ensures { result ≡ planning.has_port port routes.now }
{
    routes.iter().any(|route| route.port == port)
}

// The first port that two of the routes have, if there is one.
fn shared_port(routes: &[Route]) -> Option<u16>
    ensures { result ≡ planning.shared_port routes.now }
{
    for (index, route) in routes.iter().enumerate() {
        if has_port(route.port, &routes[index + 1..]) {
            return Some(route.port);
        }
    }
    None
}

// What these routes lack, if nobody knows where this machine is, or that is known.
fn lack_by(shared: Option<u16>, listen: Option<u32>) -> Option<Lack>
    ensures { result ≡ planning.lack_by shared listen }
{
    match (shared, listen) {
        (Some(port), _) => Some(Lack::SharedPort(port)),
        (None, None) => Some(Lack::Listen),
        (None, Some(_)) => None,
    }
}

// What these routes lack, so that nothing can be relayed.
fn lack_of(routes: &[Route], listen: Option<u32>) -> Option<Lack>
    ensures { result ≡ planning.lack_of routes.now listen }
{
    match routes {
        [] => Some(Lack::Device),
        _ => lack_by(shared_port(routes), listen),
    }
}

// The controller of this machine.
fn controller_of(said: Option<u16>, file: Option<u16>) -> Address
    ensures { result ≡ planning.controller_of said file }
{
    Address {
        host: HOME,
        port: controller_port(said, file),
    }
}

// Where this machine is on the stage's network, if these routes can be relayed; else what they lack.
fn stage_of(routes: &[Route], listen: Option<u32>) -> Result<u32, Lack>
    ensures stage { IfOk result (λ stage. planning.IsStage routes.now listen stage) }
    ensures lacks { IfErr result (λ lack. planning.lack_of routes.now listen ≡ Some lack) }
{
    match (lack_of(routes, listen), listen) {
        (None, Some(stage)) => Ok(stage),
        (Some(lack), _) => Err(lack),
        (None, None) => Err(Lack::Listen),
    }
}

/// What the relay stands between, by this show file. `said` is the port of the controller that the command line or the
/// environment says. If the file lacks something, nothing is relayed.
pub fn plan_of(alloc: Global, said: Option<u16>, file: &ShowFile) -> Result<Plan, PlanFault>
    ensures planned { IfOk result (λ plan. planning.IsPlanned said file.now plan) }
    ensures fault { IfErr result (λ fault. planning.IsFault file.now fault) }
{
    let routes = routes(alloc, &file.devices)?;
    match stage_of(&routes, file.listen) {
        Ok(stage) => Ok(Plan {
            controller: controller_of(said, file.port),
            stage,
            routes,
        }),
        Err(lack) => {
            drop(routes);
            Err(PlanFault::Lacks(lack))
        }
    }
}
