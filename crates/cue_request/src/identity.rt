//! Where the page is asked, by whom, and what it is for: its hosts and origins.
ghost use Rattle.std.specs.Prelude.{◌≡◌, ◌++◌, ◌↔◌, codes, option_map, IsTrue};
ghost use Rattle.std.specs.List.{list_all};
ghost use Rattle.cue_request.specs.Identity.{
  IsAskedHere,
  IsFromPage,
  IsHome,
  IsHostOf,
  IsName,
  IsNamed,
  IsOfOthers,
  IsOriginOf,
  IsPlainName,
  IsPlayed,
  IsPort,
  IsSaid,
  is_name_byte,
  name_of,
  origin_of,
};

use crate::numbers::number_in;
use crate::texts::{after, at_colon};
use itoa::Buffer;

/// The port that a host without one has (RFC 9110, section 4.2.1).
const USUAL_PORT: u16 = 80;

/// The same over TLS.
const USUAL_SAFE_PORT: u16 = 443;

/// The longest name of a host, in bytes (RFC 1035, section 2.3.4).
const MAX_NAME: usize = 253;

/// What a page is for.
#[derive(Clone, Copy)]
pub enum Purpose<'a> {
    /// Its buttons are pressed, and it is asked on this machine alone. The word of its lock, if it has one.
    Plays(Option<&'a [u8]>),
    /// It only shows: no press is taken. The name that a proxy gives it, if there is one, as a browser says it:
    /// `fly.example`, or `fly.example:8443`, in lower case.
    Shows(Option<&'a [u8]>),
}

/// Where the page is, what its own commands carry, and what it is for.
#[derive(Clone, Copy)]
pub struct PageIdentity<'a> {
    /// The port of 127.0.0.1 at which it is served.
    pub port: u16,
    /// What is drawn at the start and stands in the page alone.
    pub token: &'a [u8],
    pub purpose: Purpose<'a>,
}

// Whether a byte may stand in a name as browsers say it.
fn is_name_byte(byte: u8) -> bool
    ensures { result ≡ is_name_byte byte }
{
    byte.is_ascii_lowercase() || byte.is_ascii_digit() || byte == b'-' || byte == b'.'
}

// Whether each byte of a text may stand in a name.
fn is_of_name(text: &[u8]) -> bool
    ensures { result ≡ list_all is_name_byte text.now }
{
    text.iter().all(|byte| is_name_byte(*byte))
}

// Whether a text can be the name of a host, without a port.
fn is_plain_name(text: &[u8]) -> bool
    ensures { IsTrue result → IsPlainName text.now }
{
    !text.is_empty()
        && text.len() <= MAX_NAME
        && is_of_name(text)
        && !text.starts_with(b".")
        && !text.ends_with(b".")
}

// Whether a browser says this port after a name: those that are usual it leaves out.
fn is_said(port: u64) -> bool
    ensures { IsTrue result → IsSaid port }
{
    let is_usual = port == u64::from(USUAL_PORT) || port == u64::from(USUAL_SAFE_PORT);
    port >= 1 && port <= u64::from(u16::MAX) && !is_usual
}

// Whether a text is a port that a browser says after a name.
fn is_port(text: &[u8]) -> bool
    ensures { IsTrue result → IsPort text.now }
{
    match number_in(text) {
        Some(port) => is_said(port),
        None => false,
    }
}

/// Whether a text can be the name that a proxy gives the page: letters in lower case, digits, dashes and points, and
/// then a port, if it is not that of its kind.
pub fn is_name(text: &[u8]) -> bool
    ensures { IsTrue result → IsName text.now }
{
    match at_colon(text) {
        Some((name, port)) => is_plain_name(name) && is_port(port),
        None => is_plain_name(text),
    }
}

/// Whether its buttons are pressed.
pub(crate) fn is_played(purpose: Purpose<'_>) -> bool
    ensures { IsTrue result → IsPlayed purpose.entry }
{
    match purpose {
        Purpose::Plays(_) => true,
        Purpose::Shows(_) => false,
    }
}

// The name that a proxy gives it.
fn name_of<'a>(purpose: Purpose<'a>) -> Option<&'a [u8]>
    ensures { option_map (λ v. v.now) result ≡ name_of purpose.entry }
{
    match purpose {
        Purpose::Plays(_) => None,
        Purpose::Shows(name) => name,
    }
}

// Whether the text is the two parts, one after the other.
fn is_joined(text: &[u8], front: &[u8], rest: &[u8]) -> bool
    ensures { IsTrue result → text.now ≡ front.now ++ rest.now }
{
    match after(front, text) {
        Some(found) => found == rest,
        None => false,
    }
}

// Whether the host is this machine, with the port.
fn is_home_with(port: u16, host: &[u8]) -> bool
    ensures { IsTrue result → IsHome port host.now }
{
    let mut buffer = Buffer::new();
    let spelled = buffer.format(port).as_bytes();
    is_joined(host, b"127.0.0.1:", spelled) || is_joined(host, b"localhost:", spelled)
}

// Whether the host is this machine at the port, which browsers leave out if it is the usual one.
fn is_home(port: u16, host: &[u8]) -> bool
    ensures { IsTrue result → IsHome port host.now }
{
    if port == USUAL_PORT && (host == b"127.0.0.1".as_slice() || host == b"localhost".as_slice()) {
        return true;
    }
    is_home_with(port, host)
}

// Whether the host is the name that a proxy gives the page.
fn is_named(identity: &PageIdentity<'_>, host: &[u8]) -> bool
    ensures { IsTrue result → IsNamed identity.now host.now }
{
    match name_of(identity.purpose) {
        Some(name) => name == host,
        None => false,
    }
}

// Whether the page is asked at this host.
fn is_host_of(identity: &PageIdentity<'_>, host: &[u8]) -> bool
    ensures { IsTrue result → IsHostOf identity.now host.now }
{
    is_home(identity.port, host) || is_named(identity, host)
}

// Whether it is the origin of a page that was read at this host from this machine.
fn is_plain_origin(host: &[u8], origin: &[u8]) -> bool
    ensures { IsTrue result → origin.now ≡ origin_of host.now }
{
    is_joined(origin, b"http://", host)
}

// Whether it is the origin of a page that was read at this host: over TLS only by the name, since a proxy speaks it.
fn is_origin_of(identity: &PageIdentity<'_>, host: &[u8], origin: &[u8]) -> bool
    ensures { IsTrue result → IsOriginOf identity.now host.now origin.now }
{
    is_plain_origin(host, origin)
        || (is_named(identity, host) && is_joined(origin, b"https://", host))
}

// Whether a page of another site made the browser ask.
fn is_of_others(site: Option<&[u8]>) -> bool
    ensures { IsTrue result ↔ IsOfOthers (option_map (λ v. v.now) site.entry) }
{
    match site {
        Some(site) => site == b"cross-site".as_slice(),
        None => false,
    }
}

// Whether it came to a host of the page, and from no page of another origin.
fn is_asked_at(identity: &PageIdentity<'_>, host: Option<&[u8]>, origin: Option<&[u8]>) -> bool
    ensures { IsTrue result → IsAskedHere identity.now (option_map (λ v. v.now) host.entry)
        (option_map (λ v. v.now) origin.entry) }
{
    match (host, origin) {
        (Some(host), None) => is_host_of(identity, host),
        (Some(host), Some(origin)) => is_host_of(identity, host)
            && is_origin_of(identity, host, origin),
        (None, _) => false,
    }
}

/// Whether it came to a host of the page, and from no foreign page: what a head says of host, origin and site.
pub(crate) fn is_asked_here(
    identity: &PageIdentity<'_>,
    host: Option<&[u8]>,
    origin: Option<&[u8]>,
    site: Option<&[u8]>,
) -> bool
    ensures own { IsTrue result → IsOfOthers (option_map (λ v. v.now) site.entry) → ⊥ }
    ensures here { IsTrue result → IsAskedHere identity.now (option_map (λ v. v.now) host.entry)
        (option_map (λ v. v.now) origin.entry) }
{
    !is_of_others(site) && is_asked_at(identity, host, origin)
}

// Whether these are of our own page.
fn is_ours(identity: &PageIdentity<'_>, host: &[u8], origin: &[u8], token: &[u8]) -> bool
    ensures home { IsTrue result → IsHome identity.now.port host.now }
    ensures own { IsTrue result → origin.now ≡ origin_of host.now }
    ensures knows { IsTrue result → token.now ≡ identity.now.token.now }
{
    is_home(identity.port, host) && is_plain_origin(host, origin) && token == identity.token
}

/// Whether it came from our own page on this machine.
pub(crate) fn is_from_page(
    identity: &PageIdentity<'_>,
    host: Option<&[u8]>,
    origin: Option<&[u8]>,
    token: Option<&[u8]>,
) -> bool
    ensures { IsTrue result → IsFromPage identity.now (option_map (λ v. v.now) host.entry)
        (option_map (λ v. v.now) origin.entry) (option_map (λ v. v.now) token.entry) }
{
    match (host, origin, token) {
        (Some(host), Some(origin), Some(token)) => is_ours(identity, host, origin, token),
        _ => false,
    }
}
