//! What is known of each device.
ghost use Rattle.std.specs.Prelude.{◌≡◌, IfOk, map};
ghost use Rattle.cue_relay.specs.Hearing.{told_of_message, told_of_time};
ghost use Rattle.cue_relay_machine.specs.Texts.{after_claim_of, after_message_of, after_time_of, take_at};
ghost use Rattle.cue_relay_machine.specs.Texts.{tell_at, unknown};

use cue_relay::{Claim, Claims, Contact, Message, News, Route};
use std::alloc::{AllocError, Global};

/// A device, and what is known of it.
#[derive(Clone, Copy, Debug)]
pub struct Known {
    pub route: Route,
    pub contact: Contact,
    /// What it told of itself.
    pub claims: Claims,
}

impl Known {
    /// What there is to say of it once this went on, from it or to it.
    pub fn told_of_message(self, message: Message, now: u64) -> Option<News>
        ensures { result ≡ told_of_message self.contact message }
    {
        let mut contact = self.contact;
        contact.take(message, now)
    }

    // It is what is known once this went on.
    fn after_message(self, message: Message, now: u64) -> Known
        ensures { result ≡ after_message_of self message now }
    {
        let mut contact = self.contact;
        let _ = contact.take(message, now);
        Known {
            route: self.route,
            contact,
            claims: self.claims,
        }
    }

    // It is what is known once it told this of itself.
    fn after_claim(self, claim: Claim, now: u64) -> Known
        ensures { result ≡ after_claim_of self claim now }
    {
        Known {
            route: self.route,
            contact: self.contact,
            claims: self.claims.after(claim, now),
        }
    }

    /// What there is to say of it at this time.
    pub fn told_of_time(self, now: u64) -> Option<News>
        ensures { result ≡ told_of_time self.contact now }
    {
        let mut contact = self.contact;
        contact.pass(now)
    }

    /// What is known at this time.
    pub fn after_time(self, now: u64) -> Known
        ensures { result ≡ after_time_of now self }
    {
        let mut contact = self.contact;
        let _ = contact.pass(now);
        Known {
            route: self.route,
            contact,
            claims: self.claims,
        }
    }
}

/// The devices of these routes, of which nothing is known yet.
pub fn all_known(alloc: Global, routes: &[Route]) -> Result<Vec<Known>, AllocError>
    ensures { IfOk result (λ known. known.items ≡ map unknown routes.now) }
{
    let mut known = Vec::with_capacity(alloc, routes.len())?;
    for route in routes {
        known.push(Known {
            route: *route,
            contact: Contact::NEVER,
            claims: Claims::NONE,
        })?;
    }
    Ok(known)
}

/// This went on, from the device of this route or to it.
pub fn take_at(known: &mut [Known], route: usize, message: Message, now: u64)
    ensures { known.new ≡ take_at known.old route message now }
{
    if route < known.len() {
        known[route] = known[route].after_message(message, now);
    }
}

/// The device of this route told this of itself.
pub fn tell_at(known: &mut [Known], route: usize, claim: Claim, now: u64)
    ensures { known.new ≡ tell_at known.old route claim now }
{
    if route < known.len() {
        known[route] = known[route].after_claim(claim, now);
    }
}
