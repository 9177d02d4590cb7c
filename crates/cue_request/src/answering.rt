//! Answers: a status, the fields that each carries, and a body.
ghost use Rattle.std.specs.Prelude.{◌≡◌, IfOk, string_bytes};
ghost use Rattle.cue_request.specs.Answers.{answer_of, refusal_words, status_of, type_of};

use crate::request::Refusal;
use std::alloc::{AllocError, Global};

/// What the answers that are no page may do in a browser: nothing.
pub const NOTHING: &str = "default-src 'none'; frame-ancestors 'none'";

/// What each answer says of itself.
const GUARD: &str = "\r\nConnection: close\r\nCache-Control: no-store\r\n\
    X-Content-Type-Options: nosniff\r\nX-Frame-Options: DENY";

/// The first line of an answer, but for its version.
#[derive(Clone, Copy, Debug, PartialEq, Eq)]
pub enum Outcome {
    Done,
    /// The request is not carried out.
    Refused(Refusal),
    /// The store cannot be read, or nobody replied.
    Unavailable,
}

/// What a body is.
#[derive(Clone, Copy, Debug, PartialEq, Eq)]
pub enum Kind {
    Page,
    Json,
    Text,
}

/// The status and its reason, as RFC 9110 has them; 423 is of RFC 4918, 429 of RFC 6585.
pub fn status_of(outcome: Outcome) -> &'static str
    ensures { result.now ≡ status_of outcome }
{
    match outcome {
        Outcome::Done => "200 OK",
        Outcome::Refused(Refusal::Unreadable) => "400 Bad Request",
        Outcome::Refused(Refusal::Foreign | Refusal::OnlyShows) => "403 Forbidden",
        Outcome::Refused(Refusal::Unknown) => "404 Not Found",
        Outcome::Refused(Refusal::Method) => "405 Method Not Allowed",
        Outcome::Refused(Refusal::Late) => "408 Request Timeout",
        Outcome::Refused(Refusal::LongBody) => "413 Content Too Large",
        Outcome::Refused(Refusal::NoWord | Refusal::WrongWord) => "423 Locked",
        Outcome::Refused(Refusal::Closed) => "429 Too Many Requests",
        Outcome::Refused(Refusal::LongHead) => "431 Request Header Fields Too Large",
        Outcome::Unavailable => "503 Service Unavailable",
    }
}

/// Why a request is refused, in words.
pub fn refusal_words(refusal: Refusal) -> &'static str
    ensures { result.now ≡ refusal_words refusal }
{
    match refusal {
        Refusal::Unreadable => "this is no request that the page reads",
        Refusal::Foreign => "only the page itself may ask, on this machine",
        Refusal::Unknown => "there is nothing here",
        Refusal::Method => "this cannot be asked so",
        Refusal::Late => "the request did not come whole within a second",
        Refusal::LongBody => "the body is longer than 256 bytes",
        Refusal::LongHead => "the head is longer than 8192 bytes",
        Refusal::OnlyShows => "this page only shows",
        Refusal::NoWord => "the show is locked: a move of the place and a release need its word",
        Refusal::WrongWord => "the show is locked: this is not its word",
        Refusal::Closed => {
            "the show is locked: five wrong words came within a minute; for ten seconds no word is taken"
        }
    }
}

fn type_of(kind: Kind) -> &'static str
    ensures { result.now ≡ type_of kind }
{
    match kind {
        Kind::Page => "text/html; charset=utf-8",
        Kind::Json => "application/json",
        Kind::Text => "text/plain; charset=utf-8",
    }
}

// The bytes of an answer of this status and type.
fn answer_of(
    alloc: Global,
    status: &str,
    kind: &str,
    policy: &str,
    body: &str,
) -> Result<String, AllocError>
    ensures { IfOk result (λ text. string_bytes text ≡ answer_of status.now kind.now policy.now body.now) }
{
    let length = body.len();
    format!(in alloc;
        "HTTP/1.1 {status}\r\nContent-Type: {kind}\r\nContent-Length: {length}{GUARD}\r\n\
        Content-Security-Policy: {policy}\r\n\r\n{body}"
    )
}

/// The bytes of an answer. `policy` is what its body may do in a browser (a Content-Security-Policy). No other page may
/// show it in a frame, nothing keeps a copy, and the connection ends with it.
pub fn answer(
    alloc: Global,
    outcome: Outcome,
    kind: Kind,
    policy: &str,
    body: &str,
) -> Result<String, AllocError>
    ensures { IfOk result (λ text. string_bytes text
        ≡ answer_of (status_of outcome) (type_of kind) policy.now body.now) }
{
    answer_of(alloc, status_of(outcome), type_of(kind), policy, body)
}
