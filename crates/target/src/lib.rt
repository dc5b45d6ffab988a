// What a request is aimed at: the three parts of its request line, and its URI's form, stream, host and query. Every function has an
// answer for all bytes. A request line's bytes are looked at once each (those of the sixteen in which the second space stands twice); a
// URI's at most twice each (those of its host for `/` and by their class), but three times the byte behind its host and the first digit of a
// stream's number, and never those of its query. No byte is copied.
#![tactic(auto)]

ghost use Rattle.std.specs.Prelude.{◌≡◌, false, MatchOption};
ghost use Rattle.target.specs.Line.{is_three};
ghost use Rattle.target.specs.Steps.{PartsAre, is_port_number, host_end, stream_in, UriIs};
ghost use Rattle.target.specs.Uri.{starts_with, is_uri};

use digits::Zeros;
use scan::{Case, Class, Span};

// The places of the two spaces between the three parts of a request line: places and no slices, since where a part stands is promised too
// (promises/proofs/Unique).
#[derive(Clone, Copy, PartialEq, Eq, Debug)]
pub struct Parts {
    pub first: usize,
    pub second: usize,
}

// What a URI names. Its host is a span and no slice, as the parts are.
#[derive(Clone, Copy, PartialEq, Eq, Debug)]
pub struct Uri {
    // Where its query starts, if one was sent; it ends where the URI ends.
    pub query: Option<usize>,
    // The stream named, 1 to 65535.
    pub stream: Option<u32>,
    pub host: Span,
}

// The three parts of a request line, none of them empty, with one space between each two.
#[tactic(auto, using(crate::proofs::Lines::one_part))]
pub fn request_line(line: &[u8]) -> Option<Parts>
    ensures { MatchOption result (is_three line.now ≡ false) (PartsAre line.now) }
{
    let first = scan::first_from(line, 0, Class::Is(b' '));
    if line.len() <= first {
        return None;
    }
    let next = first + 1;
    let second = next + scan::first_far(&line[next..], b' ');
    if line.len() <= second {
        return None;
    }
    let third = second + 1;
    if scan::first_from(line, third, Class::Is(b' ')) < line.len() {
        return None;
    }
    if (first == 0) | (second == next) | (line.len() == third) {
        return None;
    }
    Some(Parts { first, second })
}

// Whether a text starts with another.
#[tactic(auto, using(crate::proofs::Uris::starts_short))]
pub fn starts_with(t: &[u8], s: &[u8]) -> bool
    ensures { result ≡ starts_with t.now s.now }
{
    let n = t.len();
    if s.len() < n {
        return false;
    }
    scan::are_alike(&s[0..n], t, Case::Counts)
}

// Whether a text is a port: 1 to 65535 in one to five digits.
fn is_port(s: &[u8]) -> bool
    ensures { result ≡ is_port_number s.now }
{
    digits::at_least(1, digits::number(s, Zeros::Allowed, 5, 65535)).is_some()
}

// Where the host ends in a host with an optional port.
fn host_end(a: &[u8]) -> Option<usize>
    ensures { result ≡ host_end a.now }
{
    let k = scan::first_in(a, Class::NotName);
    if k == 0 {
        return None;
    }
    if k == a.len() {
        return Some(k);
    }
    if a[k] != b':' {
        return None;
    }
    let port = k + 1;
    is_port(&a[port..]).then_some(k)
}

// The stream that a path names which is not empty.
#[tactic(auto, using(crate::proofs::Uris::stream_not))]
fn stream_in(path: &[u8]) -> Option<u32>
    ensures { result ≡ stream_in path.now }
{
    if !starts_with(b"stream=", path) {
        return None;
    }
    digits::at_least(1, digits::number(&path[7..], Zeros::Refused, 5, 65535))
}

// What a URI names, the query aside, and where its host and its query stand.
pub fn read_uri(s: &[u8]) -> Option<Uri>
    ensures { MatchOption result (is_uri s.now ≡ false) (UriIs s.now) }
{
    if !starts_with(b"rtsp://", s) {
        return None;
    }
    let rest = &s[7..];
    let slash = scan::first_in(rest, Class::Is(b'/'));
    if slash == rest.len() {
        return None;
    }
    let host = host_end(&rest[0..slash])?;
    let next = slash + 1;
    let path = &rest[next..];
    let mark = scan::first_in(path, Class::Is(b'?'));
    let stream = if mark == 0 {
        None
    } else {
        Some(stream_in(&path[0..mark])?)
    };
    Some(Uri {
        query: (mark < path.len()).then_some(7 + next + mark + 1),
        stream,
        host: Span {
            start: 7,
            end: 7 + host,
        },
    })
}
