// What a request's URI asks: steps 7 to 10. Its bytes are looked at as `target` and `query` say, and no byte is copied.
#![tactic(auto)]

mod query;

ghost use Rattle.std.specs.Prelude.{◌≡◌, Some, MatchResult};
ghost use Rattle.std.specs.Result.{result_err};
ghost use Rattle.aim.specs.Found.{takes_no_query, lacks_stream, is_span, verdict_of, Reached, unasked, AimIs, Refuses};

use query::Query;
use refusals::Refusal;
use scan::Span;
use target::Uri;

#[derive(Clone, Copy, PartialEq, Eq, Debug)]
pub enum Method {
    Options,
    Setup,
    Play,
    Teardown,
    // Any other text.
    Other,
}

// What a URI asks. Spans and no slices, since where a text stands is promised too (promises/proofs/Unique).
#[derive(Clone, Copy, PartialEq, Eq, Debug)]
pub struct Aim {
    // Each attribute's code, 0 where it is not given: a number, since a stream's values are coded alike for C, and `stream::merge` promises
    // for any thirteen codes.
    pub codes: [u32; 13],
    // Where each attribute's text stands in the query, 0 to 0 where it is not given: an array of options is 104 bytes larger.
    pub spans: [Span; 13],
    // The stream named, 1 to 65535.
    pub stream: Option<u32>,
    pub host: Span,
    pub query: Option<Span>,
}

impl Aim {
    // The bytes that a URI has at most.
    pub const LONGEST: usize = 1024;
}

fn takes_no_query(method: Method) -> bool
    ensures { result ≡ takes_no_query method }
{
    matches!(method, Method::Options | Method::Teardown)
}

fn lacks_stream(method: Method, stream: bool, query: bool) -> bool
    ensures { result ≡ lacks_stream method stream query }
{
    match method {
        Method::Setup => !stream & !query,
        Method::Play | Method::Teardown => !stream,
        Method::Options | Method::Other => false,
    }
}

fn is_span(s: Span) -> bool
    ensures { result ≡ is_span s }
{
    s.start < s.end
}

// A URI without a query.
fn unasked(method: Method, uri: Uri) -> Result<Aim, Refusal>
    ensures { result ≡ unasked method uri }
{
    if lacks_stream(method, uri.stream.is_some(), false) {
        return Err(Refusal::NoStream);
    }
    Ok(Aim {
        codes: [0; 13],
        spans: [Span { start: 0, end: 0 }; 13],
        stream: uri.stream,
        host: uri.host,
        query: None,
    })
}

// What is wrong with a query that has its form.
fn verdict(method: Method, stream: bool, query: &Query) -> Result<(), Refusal>
    ensures { result_err result ≡ verdict_of method stream query.now }
{
    let pids = is_span(query.spans[10]);
    let edits = is_span(query.spans[11]) | is_span(query.spans[12]);
    if pids & edits {
        return Err(Refusal::PidsClash);
    }
    if edits & !stream {
        return Err(Refusal::PidsUnstreamed);
    }
    if !query.within {
        return Err(Refusal::Value);
    }
    if lacks_stream(method, stream, true) {
        return Err(Refusal::NoStream);
    }
    Ok(())
}

// A URI with a query, which starts at a place.
fn asked(method: Method, u: &[u8], uri: Uri, start: usize, frontends: u8) -> Result<Aim, Refusal>
    requires { Reached u.now uri (Some start) }
    ensures { MatchResult result (AimIs frontends method u.now) (Refuses frontends method u.now) }
{
    if takes_no_query(method) {
        return Err(Refusal::QueryUntaken);
    }
    let Some(q) = query::read_query(&u[start..], frontends) else {
        return Err(Refusal::QueryForm);
    };
    verdict(method, uri.stream.is_some(), &q)?;
    Ok(Aim {
        codes: q.codes,
        spans: q.spans,
        stream: uri.stream,
        host: uri.host,
        query: Some(Span {
            start,
            end: u.len(),
        }),
    })
}

// Reads a URI that was sent with a method to a box with so many frontends.
pub fn read_aim(method: Method, u: &[u8], frontends: u8) -> Result<Aim, Refusal>
    ensures { MatchResult result (AimIs frontends method u.now) (Refuses frontends method u.now) }
{
    if Aim::LONGEST < u.len() {
        return Err(Refusal::UriLong);
    }
    let uri = target::read_uri(u).ok_or(Refusal::UriForm)?;
    match uri.query {
        Some(start) => asked(method, u, uri, start, frontends),
        None => unasked(method, uri),
    }
}
