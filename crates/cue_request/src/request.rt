//! Requests: what the head of one says, and what it is allowed.
ghost use Rattle.std.specs.Prelude.{◌≡◌, ◌≤◌, codes, drop, length, take, map, option_map};
ghost use Rattle.std.specs.Prelude.{All, IfSome, IfOk, Some, false};
ghost use Rattle.std.specs.Fmt.{decimal};
ghost use Rattle.httparse.specs.Grammar.{ReadsRequest, RequestHead};
ghost use Rattle.httparse.specs.Spans.{header_bytes, name_and_value, span_bytes, IsHeaderWithin, IsWithin};
ghost use Rattle.cue_request.specs.Identity.{IsAskedHere, IsOfOthers};
ghost use Rattle.cue_request.specs.Requests.{IsAsked, IsCommand, IsCommandHead, IsHeadOf, OnCommand};

use crate::fields::{has_field, has_many, only_value};
use crate::identity::{PageIdentity, is_asked_here, is_from_page, is_played};
use crate::numbers::number_in;
use httparse::Status;
use httparse::spans::{EMPTY_HEADER_SPAN, HeaderSpan, RequestSpans, parse_request};

/// The longest head, in bytes.
pub const MAX_HEAD: usize = 8192;

/// The longest body, in bytes.
pub const MAX_BODY: usize = 256;

/// The most fields of a head.
const MAX_FIELDS: usize = 64;

/// What is looked at of a head. A field that is there twice counts as not there.
#[derive(Clone, Copy)]
pub struct Head<'a> {
    pub method: &'a [u8],
    pub target: &'a [u8],
    pub host: Option<&'a [u8]>,
    pub origin: Option<&'a [u8]>,
    pub token: Option<&'a [u8]>,
    /// The word of the lock of the show.
    pub word: Option<&'a [u8]>,
    /// How long its body is, in decimal.
    pub length: Option<&'a [u8]>,
    /// Whose page asked, as the browser says it (Sec-Fetch-Site).
    pub site: Option<&'a [u8]>,
    /// Whether it says that more than once.
    pub many_sites: bool,
    /// Whether its body is coded, so that `length` may not be its length (Transfer-Encoding).
    pub is_coded: bool,
}

/// What a request asks of the page.
#[derive(Clone, Copy, Debug, PartialEq, Eq)]
pub enum Asked {
    Page,
    Board,
    ShowFile,
    /// One thing is asked of the controller, by a body of so many bytes.
    Command(usize),
}

/// Why a request is not carried out.
#[derive(Clone, Copy, Debug, PartialEq, Eq)]
pub enum Refusal {
    /// It is no head of HTTP/1.1, or its body has no length, or is coded.
    Unreadable,
    /// Its head is longer than `MAX_HEAD`.
    LongHead,
    /// It came to another host, from another origin, or without the token.
    Foreign,
    /// There is nothing at its target.
    Unknown,
    /// Its method is not one of its target.
    Method,
    /// Its body is longer than `MAX_BODY`.
    LongBody,
    /// It did not come whole in time.
    Late,
    /// It is a press, and the page only shows.
    OnlyShows,
    /// The press needs the word of the lock, and does not say it.
    NoWord,
    /// The word that it says is not that of the lock.
    WrongWord,
    /// Five wrong words came within a minute: for ten seconds none is taken.
    Closed,
}

// What the spans of a head cover.
fn head_at<'a>(buffer: &'a [u8], fields: &[HeaderSpan], spans: &RequestSpans) -> Head<'a>
    requires method { IsWithin (length buffer.now) spans.now.method }
    requires target { IsWithin (length buffer.now) spans.now.path }
    requires fields { All (IsHeaderWithin (length buffer.now)) fields.now }
    ensures { (read : RequestHead) → span_bytes buffer.now spans.now.method ≡ read.method
        → span_bytes buffer.now spans.now.path ≡ read.target
        → map (header_bytes buffer.now) fields.now ≡ map name_and_value read.fields → IsHeadOf result read }
{
    Head {
        method: spans.method.of(buffer),
        target: spans.path.of(buffer),
        host: only_value(buffer, fields, b"host"),
        origin: only_value(buffer, fields, b"origin"),
        token: only_value(buffer, fields, b"cuedesk-token"),
        word: only_value(buffer, fields, b"cuedesk-word"),
        length: only_value(buffer, fields, b"content-length"),
        site: only_value(buffer, fields, b"sec-fetch-site"),
        many_sites: has_many(buffer, fields, b"sec-fetch-site"),
        is_coded: has_field(buffer, fields, b"transfer-encoding"),
    }
}

/// The head at the front of what has come, and where its body begins; none if it has not come whole.
pub fn read_head(bytes: &[u8]) -> Result<Option<(Head<'_>, usize)>, Refusal>
    ensures { IfOk result (λ found. IfSome found (λ at. (head : RequestHead)
        × ReadsRequest bytes.now head (drop at.1 bytes.now) × IsHeadOf at.0 head)) }
{
    let mut fields = [EMPTY_HEADER_SPAN; MAX_FIELDS];
    match parse_request(bytes, &mut fields) {
        Ok(Status::Complete(spans)) => {
            let head = head_at(bytes, &fields[..spans.headers], &spans);
            if spans.len > MAX_HEAD {
                Err(Refusal::LongHead)
            } else {
                Ok(Some((head, spans.len)))
            }
        }
        Ok(Status::Partial) => {
            if bytes.len() > MAX_HEAD {
                Err(Refusal::LongHead)
            } else {
                Ok(None)
            }
        }
        Err(_) => Err(Refusal::Unreadable),
    }
}

// How long the body is: in decimal, with no sign and no zero in front.
fn body_length(text: Option<&[u8]>) -> Result<usize, Refusal>
    ensures short { IfOk result (λ size. size ≤ 256) }
    ensures length { IfOk result (λ size. option_map (λ v. v.now) text.entry ≡ Some (decimal size)) }
{
    let Some(size) = text.and_then(|text| number_in(text)) else {
        return Err(Refusal::Unreadable);
    };
    match usize::try_from(size) {
        Ok(size) if size <= MAX_BODY => Ok(size),
        _ => Err(Refusal::LongBody),
    }
}

// What is asked at the target of the commands: a page that only shows takes nothing there, whatever comes.
fn judge_command(identity: &PageIdentity<'_>, head: &Head<'_>) -> Result<Asked, Refusal>
    requires target { head.now.target.now ≡ codes "/command" }
    ensures { IfOk result (λ asked. OnCommand asked (IsCommandHead identity.now head.now)) }
{
    if !is_played(identity.purpose) {
        Err(Refusal::OnlyShows)
    } else if head.method != b"POST".as_slice() {
        Err(Refusal::Method)
    } else if is_from_page(identity, head.host, head.origin, head.token) {
        Ok(Asked::Command(body_length(head.length)?))
    } else {
        Err(Refusal::Foreign)
    }
}

// What is read at a target.
fn judge_reading(target: &[u8]) -> Result<Asked, Refusal>
    ensures { IfOk result (λ asked. OnCommand asked (λ _. ⊥)) }
{
    if target == b"/".as_slice() {
        Ok(Asked::Page)
    } else if target == b"/board.json".as_slice() {
        Ok(Asked::Board)
    } else if target == b"/show.toml".as_slice() {
        Ok(Asked::ShowFile)
    } else {
        Err(Refusal::Unknown)
    }
}

/// What a request with this head is allowed. Host, origin and token are looked at before anything else, and whether a
/// page of another site asks.
pub fn judge(identity: &PageIdentity<'_>, head: &Head<'_>) -> Result<Asked, Refusal>
    ensures own { IfOk result (λ _. IsOfOthers (option_map (λ v. v.now) head.now.site) → ⊥) }
    ensures single { IfOk result (λ _. head.now.many_sites ≡ false) }
    ensures uncoded { IfOk result (λ _. head.now.is_coded ≡ false) }
    ensures here { IfOk result (λ _. IsAskedHere identity.now (option_map (λ v. v.now) head.now.host)
        (option_map (λ v. v.now) head.now.origin)) }
    ensures command { IfOk result (λ asked. OnCommand asked (IsCommandHead identity.now head.now)) }
{
    if head.many_sites || !is_asked_here(identity, head.host, head.origin, head.site) {
        Err(Refusal::Foreign)
    } else if head.is_coded {
        Err(Refusal::Unreadable)
    } else if head.target == b"/command".as_slice() {
        judge_command(identity, head)
    } else if head.method == b"GET".as_slice() {
        judge_reading(head.target)
    } else {
        Err(Refusal::Method)
    }
}

/// A request that has come whole.
#[derive(Clone, Copy)]
pub struct Request<'a> {
    pub asked: Asked,
    /// What stands in its body: of a command, so many bytes as its head says; else nothing.
    pub body: &'a [u8],
    /// What it says of the word of the lock.
    pub word: Option<&'a [u8]>,
}

// The request whose body begins there; none if it has not come whole.
fn with_body<'a>(
    bytes: &'a [u8],
    start: usize,
    asked: Asked,
    word: Option<&'a [u8]>,
) -> Option<Request<'a>>
    ensures asked { IfSome result (λ request. request.asked ≡ asked) }
    ensures word { IfSome result (λ request.
        option_map (λ v. v.now) request.word ≡ option_map (λ v. v.now) word.entry) }
    ensures body { IfSome result (λ request. OnCommand asked (λ size. (length request.body.now ≡ size)
        × (request.body.now ≡ take size (drop start bytes.now)))) }
{
    let size = match asked {
        Asked::Command(size) => size,
        Asked::Page | Asked::Board | Asked::ShowFile => 0,
    };
    let body = bytes.get(start..)?.get(..size)?;
    Some(Request { asked, body, word })
}

/// The request at the front of what has come from one connection; none if it has not come whole. A head that is
/// refused is so before its body has come.
pub fn read_request<'a>(
    identity: &PageIdentity<'_>,
    bytes: &'a [u8],
) -> Result<Option<Request<'a>>, Refusal>
    ensures asked { IfOk result (λ found. IfSome found (λ _. IsAsked identity.now bytes.now)) }
    ensures command { IfOk result (λ found. IfSome found (λ request. OnCommand request.asked (λ _.
        IsCommand identity.now bytes.now request.body.now (option_map (λ v. v.now) request.word)))) }
{
    match read_head(bytes)? {
        Some((head, start)) => {
            let asked = judge(identity, &head)?;
            Ok(with_body(bytes, start, asked, head.word))
        }
        None => Ok(None),
    }
}
