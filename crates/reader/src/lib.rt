// Reads a request: any bytes in, and out comes what they ask, or the first of document 01's steps 1 to 10 that refuses them. One pass over
// the lines (`lines`) looks at each byte once, and finds every known header; after it only the request line, the URI and the values of
// CSeq, Session and Transport are looked at again, as `target`, `aim` and `digits` say. No byte is copied.
#![tactic(auto)]

mod fields;

ghost use Rattle.std.specs.Prelude.{◌≡◌, ◌+◌, ◌<◌, ◌^◌, true, IfSome, option_map, MatchOption, MatchResult};
ghost use Rattle.scan.specs.Text.{is_empty};
ghost use Rattle.lines.specs.Laid.{LinesAre};
ghost use Rattle.reader.specs.Fields.{transport_of};
ghost use Rattle.reader.specs.Request.{cseq_of};
ghost use Rattle.reader.specs.Heads.{CseqSeen, CseqIs, StandsIn, head_text, session_seen, are_twice, behind, refused_by, IsMethod, Headed, AskedIs, RefusedIs, is_other, method_in};

use aim::Method;
pub use fields::Session;
use lines::{Lines, Name, Seen};
use refusals::Refusal;
use scan::{Case, Span};
use target::Parts;

// What a request asks that nothing refuses. `cseq` is where the digits of its CSeq stand; spans of attributes count from the start of the query's.
#[derive(Clone, Copy, PartialEq, Eq, Debug)]
pub struct Asked {
    pub codes: [u32; 13],
    pub spans: [Span; 13],
    pub cseq: Span,
    pub method: Method,
    // The stream that its URI names, 1 to 65535.
    pub stream: Option<u32>,
    pub host: Span,
    pub query: Option<Span>,
    pub session: Session,
    // The first of the two ports of a Transport header, where it is of the one form allowed.
    pub transport: Option<u32>,
}

// Why a request is refused, and what its answer repeats: where the digits of its CSeq stand, if it has one, and the value of a Require header, where that is
// what refuses it.
#[derive(Clone, Copy, PartialEq, Eq, Debug)]
pub struct Refused {
    pub refusal: Refusal,
    pub cseq: Option<Span>,
    pub require: Option<Span>,
}

// By a step that repeats no Require value.
fn refuse(refusal: Refusal, cseq: Option<Span>) -> Refused
    ensures { result ≡ refused_by refusal cseq }
{
    Refused {
        refusal,
        cseq,
        require: None,
    }
}

// Where the digits of a CSeq header stand that was sent once, and is a number.
fn cseq_in(s: &[u8], seen: Seen) -> Option<Span>
    requires { CseqSeen s.now seen }
    ensures { MatchOption result (is_empty (cseq_of s.now) ≡ true) (CseqIs s.now) }
{
    let Seen::Once(value) = seen else {
        return None;
    };
    digits::digits_at(10, s, value, 10, 4294967295)
}

fn session_at(s: &[u8], seen: Seen) -> Session
    requires { StandsIn s.now seen }
    ensures { result ≡ session_seen s.now seen }
{
    let Some(value) = seen.first() else {
        return Session::Absent;
    };
    let start = value.start;
    let end = value.end;
    fields::session_in(&s[start..end])
}

fn transport_at(s: &[u8], seen: Seen) -> Option<u32>
    requires { StandsIn s.now seen }
    ensures { result ≡ transport_of (head_text s.now seen) }
{
    let value = seen.first()?;
    let start = value.start;
    let end = value.end;
    fields::transport_in(&s[start..end])
}

// Whether a known header other than CSeq was sent twice.
fn are_twice(l: &Lines) -> bool
    ensures { result ≡ are_twice l.now.headers }
{
    matches!(l.seen(Name::Session), Seen::Again(_))
        | matches!(l.seen(Name::Transport), Seen::Again(_))
        | matches!(l.seen(Name::Require), Seen::Again(_))
        | matches!(l.seen(Name::Accept), Seen::Again(_))
}

// The method that a text is, if it is one; its case counts.
fn method_in(text: &[u8]) -> Option<Method>
    ensures { MatchOption result (is_other (method_in text.now) ≡ true) (IsMethod text.now) }
{
    if scan::are_alike(b"OPTIONS", text, Case::Counts) {
        return Some(Method::Options);
    }
    if scan::are_alike(b"SETUP", text, Case::Counts) {
        return Some(Method::Setup);
    }
    if scan::are_alike(b"PLAY", text, Case::Counts) {
        return Some(Method::Play);
    }
    if scan::are_alike(b"TEARDOWN", text, Case::Counts) {
        return Some(Method::Teardown);
    }
    None
}

// Where a span of the URI stands in the request, in which the URI starts at `from`.
fn behind(from: usize, span: Span) -> Span
    requires start { from + span.start < 2 ^ 64 }
    requires end { from + span.end < 2 ^ 64 }
    ensures { result ≡ behind from span }
{
    Span {
        start: from + span.start,
        end: from + span.end,
    }
}

// And where its query does, if it has one.
fn query_behind(from: usize, query: Option<Span>) -> Option<Span>
    requires { IfSome query (λ q. (from + q.start < 2 ^ 64) × (from + q.end < 2 ^ 64)) }
    ensures { result ≡ option_map (behind from) query }
{
    Some(behind(from, query?))
}

// Steps 6 to 10, in a function of their own: in one with steps 3 to 5 a request takes 180 to 370 instructions and 1,200 bytes of stack more.
fn read_method(
    s: &[u8],
    l: &Lines,
    cseq: Span,
    parts: Parts,
    frontends: u8,
) -> Result<Asked, Refused>
    requires { Headed s.now l.now cseq parts }
    ensures { MatchResult result (AskedIs frontends s.now) (RefusedIs frontends s.now) }
{
    let end = l.line;
    let line = &s[0..end];
    let space = parts.first;
    let from = space + 1;
    let to = parts.second;
    let method = method_in(&line[0..space]).ok_or(refuse(Refusal::Method, Some(cseq)))?;
    match aim::read_aim(method, &line[from..to], frontends) {
        Err(refusal) => Err(refuse(refusal, Some(cseq))),
        Ok(aim) => {
            let codes = aim.codes;
            let spans = aim.spans;
            Ok(Asked {
                codes,
                spans,
                cseq,
                method,
                stream: aim.stream,
                host: behind(from, aim.host),
                query: query_behind(from, aim.query),
                session: session_at(s, l.seen(Name::Session)),
                transport: transport_at(s, l.seen(Name::Transport)),
            })
        }
    }
}

// Steps 3 to 10 of a request whose layout is whole, and whose CSeq stands at `cseq`.
fn read_line(s: &[u8], l: &Lines, cseq: Span, frontends: u8) -> Result<Asked, Refused>
    requires lines { LinesAre s.now l.now }
    requires cseq { CseqIs s.now cseq }
    ensures { MatchResult result (AskedIs frontends s.now) (RefusedIs frontends s.now) }
{
    let end = l.line;
    let line = &s[0..end];
    let parts = target::request_line(line).ok_or(refuse(Refusal::RequestLine, Some(cseq)))?;
    let version = parts.second + 1;
    if are_twice(l) {
        return Err(refuse(Refusal::HeaderTwice, Some(cseq)));
    }
    if !scan::are_alike(&line[version..], b"RTSP/1.0", Case::Counts) {
        return Err(refuse(Refusal::Version, Some(cseq)));
    }
    let require = l.seen(Name::Require).first();
    if require.is_some() {
        return Err(Refused {
            require,
            ..refuse(Refusal::Require, Some(cseq))
        });
    }
    read_method(s, l, cseq, parts, frontends)
}

// Reads a request that was sent to a box with so many frontends: what it asks, or the first of steps 1 to 10 that refuses it.
pub fn read(s: &[u8], frontends: u8) -> Result<Asked, Refused>
    ensures { MatchResult result (AskedIs frontends s.now) (RefusedIs frontends s.now) }
{
    let Some(lines) = lines::read_lines(s) else {
        return Err(refuse(Refusal::Layout, None));
    };
    let cseq = cseq_in(s, lines.seen(Name::CSeq)).ok_or(refuse(Refusal::CSeq, None))?;
    read_line(s, &lines, cseq, frontends)
}
